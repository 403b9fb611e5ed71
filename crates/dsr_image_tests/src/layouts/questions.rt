// What lines ask for.
use crate::layouts::cells::Entry;
use crate::layouts::rules::{field_of, pool_of};
use crate::words::Words;
use anyhow::{Result, bail};

/// What is asked for.
#[derive(Clone, Copy)]
pub enum Question<'a> {
    /// What is told of the layout with the rules and the constraints of these names.
    Told(&'a str),
    Cell(Entry),
    Reference { pool: u32, value: u64 },
    Code { pool: u32, slot: u32 },
}

fn entry_of(words: &mut Words) -> Entry {
    words.skip("record");
    let word = words.word();
    let elem = words.record_of(word);
    words.skip("field");
    let field = field_of(words);
    words.skip("entry");
    Entry {
        elem,
        field,
        index: words.large_number(),
    }
}

fn reference_of<'a>(words: &mut Words) -> Question<'a> {
    let pool = pool_of(words);
    words.skip("value");
    Question::Reference {
        pool,
        value: words.large_number(),
    }
}

fn code_of<'a>(words: &mut Words) -> Question<'a> {
    let pool = pool_of(words);
    words.skip("slot");
    Question::Code {
        pool,
        slot: words.number(),
    }
}

/// The question of a line.
pub fn question_of<'a>(line: &'a str) -> Result<Question<'a>> {
    if let Some(names) = line.strip_prefix("told") {
        return Ok(Question::Told(names));
    }
    let mut words = Words::new(line);
    let question = match words.word() {
        "cell" => Question::Cell(entry_of(&mut words)),
        "reference" => reference_of(&mut words),
        "code" => code_of(&mut words),
        _ => bail!("not understood: {line}"),
    };
    words.end()?;
    Ok(question)
}
