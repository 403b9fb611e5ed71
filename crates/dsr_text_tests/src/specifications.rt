// What is said of specifications: that a text is one, or the kind and the place of its fault.
//
// A line `=== NAME` begins a case. The lines below it, up to the next such line, are its text; the
// line feed before that next line, or at the section's end, isn't part of it. A line `+++ NAME`
// begins a case whose text comes, after a line feed, behind that of the last `===`. `tables` behind
// the name asks for the tables as well, and `prefixes` for what is said of each prefix of the text.
mod answers;
mod cases;
mod clauses;

use crate::specifications::answers::add_answer;
use crate::specifications::cases::{Case, Wanted, case_of};
use dsr_test_text::Lines;
use std::alloc::Global;

// The answers to the prefixes of a text, from none of its bytes to all of them.
fn add_prefixes(lines: &mut Lines, alloc: Global, case: &Case) {
    let text = case.text.as_bytes();
    for length in 0..=text.len() {
        lines.word(case.name);
        lines.part(" ", length as u64);
        add_answer(lines, alloc, &text[..length], false);
    }
}

fn add_case(lines: &mut Lines, alloc: Global, case: &Case) {
    match case.wanted {
        Wanted::Prefixes => add_prefixes(lines, alloc, case),
        Wanted::Answer => {
            lines.word(case.name);
            add_answer(lines, alloc, case.text.as_bytes(), false);
        }
        Wanted::Tables => {
            lines.word(case.name);
            add_answer(lines, alloc, case.text.as_bytes(), true);
        }
    }
}

// The cases of a group; the text of the first comes before the texts of the others.
fn add_group(lines: &mut Lines, alloc: Global, group: &str) -> anyhow::Result<()> {
    let mut parts = group.split("+++ ");
    let Some(first) = parts.next() else {
        return Ok(());
    };
    let first = case_of(first)?;
    add_case(lines, alloc, &first);
    for part in parts {
        let case = case_of(part)?;
        let text = format!(in alloc; "{}\n{}", first.text, case.text)?;
        let case = Case {
            text: text.as_str(),
            ..case
        };
        add_case(lines, alloc, &case);
    }
    Ok(())
}

/// The answers to the cases of a section.
pub fn add_cases(lines: &mut Lines, alloc: Global, section: &str) -> anyhow::Result<()> {
    for group in section.split("=== ").skip(1) {
        add_group(lines, alloc, group)?;
    }
    Ok(())
}
