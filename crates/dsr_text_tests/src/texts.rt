// What `parse`, `print` and `tokens` give for texts.
//
// A line `=== NAME WANTED` begins a case. The lines below it, up to the next such line, are its
// text; the line feed before that next line, or at the section's end, isn't part of it. Behind
// `hex` the text stands in hexadecimal. What stands in parentheses behind all these is a remark.
// What is wanted is one of:
//
// - `text`: the canonical text, and whether a copy of the tree, and the canonical text read again,
//   are printed the same; or the kind and the place of the fault
// - `fault`: the fault alone, where there is one
// - `tokens`: the tokens, each with its place, or the place where none stands
mod canonical;
mod tokens;

use crate::headings::{headed_text, name_and_wanted};
use crate::texts::canonical::{add_fault_of, add_text};
use crate::texts::tokens::add_tokens;
use anyhow::bail;
use dsr_parse::{faults_are_unique, trees_are_unique};
use dsr_test_text::Lines;
use std::alloc::Global;

fn bytes_of(alloc: Global, text: &str, in_hexadecimal: bool) -> anyhow::Result<Vec<u8>> {
    if !in_hexadecimal {
        return Ok(Vec::from_slice(alloc, text.as_bytes())?);
    }
    match hex::decode(alloc, text) {
        Ok(bytes) => Ok(bytes),
        Err(_) => bail!("no bytes: {text}"),
    }
}

// What is wanted of a text.
fn add_answer(lines: &mut Lines, alloc: Global, wanted: &str, text: &[u8]) {
    match wanted {
        "text" => add_text(lines, alloc, text),
        "fault" => add_fault_of(lines, alloc, text),
        "tokens" => add_tokens(lines, alloc, text),
        _ => lines.word(" isn't known\n"),
    }
}

fn add_case(lines: &mut Lines, alloc: Global, part: &str) -> anyhow::Result<()> {
    let (heading, text) = headed_text(part)?;
    let (name, wanted) = name_and_wanted(heading);
    let plain = wanted.strip_suffix(" hex");
    let bytes = bytes_of(alloc, text, plain.is_some())?;
    lines.word(name);
    add_answer(lines, alloc, plain.unwrap_or(wanted), &bytes);
    Ok(())
}

/// The answers to the cases of a section.
pub fn add_cases(lines: &mut Lines, alloc: Global, section: &str) -> anyhow::Result<()> {
    faults_are_unique();
    trees_are_unique();
    for part in section.split("=== ").skip(1) {
        add_case(lines, alloc, part)?;
    }
    Ok(())
}
