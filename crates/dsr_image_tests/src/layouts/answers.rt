// Answers to the questions of a case.
ghost use Rattle.std.specs.Prelude.{IfOk};
ghost use Rattle.dsr_meaning.specs.Legal.{IsLegalLayout};

use crate::layouts::cells::add_cell;
use crate::layouts::declared::spec_of;
use crate::layouts::questions::{Question, question_of};
use crate::layouts::references::{add_code, add_meaning};
use anyhow::{Result, bail};
use dsr_image::Whole;
use dsr_ir::{Layout, PoolNumbers};
use dsr_layout::{LayoutFault, layout};
use dsr_test_text::Lines;
use std::alloc::Global;

/// The text of declarations, all lines of their case, and the image, as its bytes and whole.
#[derive(Clone, Copy)]
pub struct Case<'a> {
    pub text: &'a str,
    pub body: &'a str,
    pub bytes: &'a [u8],
    pub image: &'a Whole,
}

// A fault as `check` tells it, with numbers in place of names.
fn add_fault(lines: &mut Lines, fault: LayoutFault) {
    match fault {
        LayoutFault::Short => lines.word("1 short"),
        LayoutFault::Arith => lines.word("2 arith"),
        LayoutFault::Outside(pool) => lines.part("3 outside ", u64::from(pool)),
        LayoutFault::Overlap(first, second) => {
            lines.part("4 overlap ", u64::from(first));
            lines.part(" ", u64::from(second));
        }
        LayoutFault::Subtype(pool, structure) => {
            lines.part("5 subtype ", u64::from(pool));
            lines.part(" ", u64::from(structure));
        }
        LayoutFault::Zero(pool) => lines.part("6 zero ", u64::from(pool)),
        LayoutFault::NoneIsCode(pool) => lines.part("7 none ", u64::from(pool)),
        LayoutFault::CodeTooWide(pool, structure, field) => {
            lines.part("8 code ", u64::from(pool));
            lines.part(" ", u64::from(structure));
            lines.part(" ", u64::from(field));
        }
        LayoutFault::CountTooWide(constraint) => lines.part("9 count ", u64::from(constraint)),
        LayoutFault::Instances => lines.word("10 instances"),
        LayoutFault::NoMemory => lines.word("no memory"),
    }
}

fn add_pool(lines: &mut Lines, pool: &PoolNumbers) {
    lines.part(", ", pool.count);
    lines.part(" * ", pool.slot);
    lines.part(" at ", pool.start);
    lines.part(" codes ", pool.code);
    lines.part(" step ", pool.step);
    lines.part(" none ", pool.none);
}

fn add_pools(lines: &mut Lines, layout: &Layout) {
    lines.word("layout");
    for pool in layout.pools.items() {
        add_pool(lines, pool);
    }
}

// The layout with rules and constraints by their names, or why there is none.
fn layout_of(alloc: Global, case: &Case, names: &str) -> Result<Result<Layout, LayoutFault>>
    ensures legal { IfOk result (λ found. IfOk found IsLegalLayout) }
{
    if case.bytes.len() > 67_108_864 {
        bail!("a long image");
    }
    let spec = spec_of(alloc, case.text, case.body, names)?;
    let found = layout(alloc, &spec, case.bytes);
    Ok(found)
}

fn add_by_layout(lines: &mut Lines, layout: &Layout, image: &Whole, question: Question)
    requires legal { IsLegalLayout layout.now }
{
    match question {
        Question::Told(_) => add_pools(lines, layout),
        Question::Cell(entry) => add_cell(lines, layout, image, entry),
        Question::Reference { pool, value } => add_meaning(lines, layout, pool, value),
        Question::Code { pool, slot } => add_code(lines, layout, pool, slot),
    }
}

/// A question with its answer; nothing for a line that names a rule or a constraint.
pub fn add_answer(lines: &mut Lines, alloc: Global, case: &Case, line: &str) -> Result<()> {
    if line.starts_with("rule ") || line.starts_with("constraint ") {
        return Ok(());
    }
    let question = question_of(line)?;
    let names = match question {
        Question::Told(names) => names,
        _ => "",
    };
    let found = layout_of(alloc, case, names)?;
    lines.word("  ");
    lines.word(line);
    lines.word(": ");
    match found {
        Ok(layout) => {
            add_by_layout(lines, &layout, case.image, question);
        }
        Err(fault) => add_fault(lines, fault),
    }
    lines.word("\n");
    Ok(())
}
