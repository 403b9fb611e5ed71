// Rules as lines give them.
use crate::words::Words;
use dsr_ir::{FieldRef, Inc, Path, Rule, Seq, Span};
use std::alloc::Global;

/// A field by the numbers of its structure and its place there.
pub fn field_of(words: &mut Words) -> FieldRef {
    let (structure, field) = words.pair();
    FieldRef { structure, field }
}

// A field, or behind `entry` that of an array at the index.
fn path_of(words: &mut Words) -> Path {
    let indexed = match words.word() {
        "field" => false,
        "entry" => true,
        _ => {
            words.refuse();
            false
        }
    };
    Path {
        field: field_of(words),
        indexed,
    }
}

fn span_of(words: &mut Words) -> Span {
    match words.word() {
        "single" => Span::Single,
        "array" => Span::Array(field_of(words)),
        "slots" => Span::Slots(words.number()),
        _ => {
            words.refuse();
            Span::Single
        }
    }
}

/// The number of a pool, behind that word.
pub fn pool_of(words: &mut Words) -> u32 {
    words.skip("pool");
    words.number()
}

// What a rule gives: the number of the set or the relation, then the pool, then the path.
fn inclusion_of(words: &mut Words) -> Inc {
    let kind = words.word();
    let symbol = words.number();
    match kind {
        "own" => Inc::Own(symbol),
        "target" => Inc::Target(symbol, path_of(words)),
        "slot" => Inc::Slot(symbol, pool_of(words)),
        "own-pair" => Inc::OwnPair(symbol, path_of(words)),
        "slot-pair" => Inc::SlotPair(symbol, pool_of(words), path_of(words)),
        _ => {
            words.refuse();
            Inc::Own(symbol)
        }
    }
}

/// A rule without guards.
pub fn rule_of(alloc: Global, line: &str) -> anyhow::Result<Rule> {
    let mut words = Words::new(line);
    words.skip("premise");
    let premise = words.option();
    let span = span_of(&mut words);
    words.skip("gives");
    let inc = inclusion_of(&mut words);
    words.end()?;
    Ok(Rule {
        premise,
        span,
        guards: Seq::new(Vec::new(alloc)),
        inc,
    })
}
