// What the instances of the rules of specifications give on images: rule, record, entry of the
// index, the fact, and behind `by` the first instance that gives it; then the members of each set,
// and what look-ups tell.
//
// Of each set it prints the number of its members, behind `to` the greatest of them, and all of
// them. Of each relation it prints the number of targets of `head` and behind `of` that of its
// sources, each with the greatest, and then on a line each source with its targets; numbers stand
// behind `by` as well, as they follow each other. Of the signs behind a member or a target the
// first says whether the model has the fact (`+`), the second whether it has that with the next
// slot or number in its place.
//
// A line `=== NAME HEX` begins a case, with the bytes of its image; the lines below it, up to the
// next such line, are its specification's text. A line `+++ NAME HEX` begins a case with the text
// of the last `===`.
mod facts;
mod lookups;
mod tuples;

use crate::bytes::bytes_of;
use crate::headings::{heading_of, name_and_image};
use crate::models::facts::add_facts;
use dsr_test_text::Lines;
use std::alloc::Global;

// A case by what stands behind the signs of its heading.
fn add_case(lines: &mut Lines, alloc: Global, heading: &str, text: &str) -> anyhow::Result<()> {
    let (name, digits) = name_and_image(heading)?;
    let image = bytes_of(alloc, digits)?;
    lines.word(name);
    add_facts(lines, alloc, text.as_bytes(), image);
    Ok(())
}

// The cases of a text.
fn add_group(lines: &mut Lines, alloc: Global, group: &str) -> anyhow::Result<()> {
    let mut parts = group.split("+++ ");
    let (heading, text) = heading_of(parts.next().unwrap_or(""))?;
    add_case(lines, alloc, heading, text)?;
    for part in parts {
        add_case(lines, alloc, part.trim_end(), text)?;
    }
    Ok(())
}

/// The answers to the cases of a section.
pub fn add_cases(lines: &mut Lines, alloc: Global, section: &str) -> anyhow::Result<()> {
    for group in section.split("=== ").skip(1) {
        add_group(lines, alloc, group)?;
    }
    Ok(())
}
