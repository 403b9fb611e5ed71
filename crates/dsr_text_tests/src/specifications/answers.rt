// What is said of a text.
use crate::faults::{add_spec_fault, add_syntax_fault};
use crate::specifications::clauses::{constraint_lines, rule_lines};
use dsr_ir::Spec;
use dsr_parse::parse;
use dsr_spec::{SpecFault, spec};
use dsr_test_text::{Lines, add_declarations};
use std::alloc::Global;

// The lines of a specification's tables.
fn add_tables(lines: &mut Lines, spec: &Spec) {
    add_declarations(lines, &spec.base);
    rule_lines(lines, spec.rules.items());
    constraint_lines(lines, spec.constraints.items());
}

fn add_meant(lines: &mut Lines, meant: Result<Spec, SpecFault>, with_tables: bool) {
    match meant {
        Ok(spec) => {
            lines.word(" ok\n");
            if with_tables {
                add_tables(lines, &spec);
            }
        }
        Err(fault) => add_spec_fault(lines, fault),
    }
}

/// What is said of a text, behind its name, and the tables where they are wanted.
pub fn add_answer(lines: &mut Lines, alloc: Global, text: &[u8], with_tables: bool) {
    match parse(alloc, text) {
        Ok(tree) => {
            let meant = spec(alloc, &tree);
            add_meant(lines, meant, with_tables);
        }
        Err(fault) => add_syntax_fault(lines, fault),
    }
}
