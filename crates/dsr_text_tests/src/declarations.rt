// What `structures` tells of declarations: that they are typed, or the kind and the place of their
// fault.
//
// A line `=== NAME` begins a case. The lines below it, up to the next such line, are its text; the
// line feed before that next line, or at the section's end, isn't part of it. `tables` behind the
// name asks for the tables as well. What stands in parentheses behind these says how the place is
// counted.
use crate::faults::add_spec_fault;
use crate::headings::{headed_text, name_and_wanted};
use anyhow::bail;
use dsr_ir::Structures;
use dsr_parse::parse;
use dsr_struct::{SpecFault, structures};
use dsr_test_text::{Lines, add_declarations};
use std::alloc::Global;

fn add_declared(lines: &mut Lines, declared: Result<Structures, SpecFault>, with_tables: bool) {
    match declared {
        Ok(base) => {
            lines.word(" typed\n");
            if with_tables {
                add_declarations(lines, &base);
            }
        }
        Err(fault) => add_spec_fault(lines, fault),
    }
}

fn add_answer(lines: &mut Lines, alloc: Global, text: &str, with_tables: bool) {
    match parse(alloc, text.as_bytes()) {
        Ok(tree) => {
            let declared = structures(alloc, &tree);
            add_declared(lines, declared, with_tables);
        }
        Err(_) => lines.word(" no text of the grammar\n"),
    }
}

fn add_case(lines: &mut Lines, alloc: Global, part: &str) -> anyhow::Result<()> {
    let (heading, text) = headed_text(part)?;
    let (name, wanted) = name_and_wanted(heading);
    let with_tables = match wanted {
        "" => false,
        "tables" => true,
        _ => bail!("{name} asks for {wanted}"),
    };
    lines.word(name);
    add_answer(lines, alloc, text, with_tables);
    Ok(())
}

/// The answers to the cases of a section.
pub fn add_cases(lines: &mut Lines, alloc: Global, section: &str) -> anyhow::Result<()> {
    for part in section.split("=== ").skip(1) {
        add_case(lines, alloc, part)?;
    }
    Ok(())
}
