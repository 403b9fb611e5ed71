//! Reads cases from the standard input and prints which symbols writes affect, and what is told of
//! edits.
//!
//! A line `=== NAME HEX` begins a case, with the bytes of its image; the next line is the text of
//! its specification, and the lines behind that, up to the next `===`, are a script of edits. Of
//! each case it prints `affected FIELD` with the symbols that a write of the field affects, for each
//! field, then `held HEX`, the bytes of a session on the image, or `not held` with the number of
//! bindings that are violated, then the answer to the edits with the number of its status, and
//! `saved HEX` where bytes are saved.
#![tactic(auto)]

mod edits;
mod fields;
mod sessions;

use dsr_test_text::Lines;
use std::alloc::Global;
use std::io;

fn add_case(lines: &mut Lines, alloc: Global, part: &str) {
    let (heading, rest) = part.split_once('\n').unwrap_or((part, ""));
    let (name, digits) = heading.split_once(' ').unwrap_or((heading, ""));
    let (spec, script) = rest.split_once('\n').unwrap_or((rest, ""));
    lines.word("=== ");
    lines.word(name);
    lines.word("\n");
    edits::add_edits(lines, alloc, spec.as_bytes(), digits, script.as_bytes());
}

fn main(rt: HostRuntime) -> anyhow::Result<()> {
    let alloc = rt.alloc();
    let input = io::read_to_string(alloc, rt.stdin())?;
    let mut lines = Lines::new(alloc);
    for part in input.split("=== ").skip(1) {
        add_case(&mut lines, alloc, part);
    }
    rt.print(lines.whole()?)?;
    Ok(())
}
