// The text of a choice.
ghost use Rattle.std.specs.Prelude.{◌≡◌, ◌+◌, ◌++◌, ◌<◌, ◌^◌, IfOk, OnOk, codes, length};
ghost use Rattle.dsr_answers.specs.Texts as texts;
ghost use Rattle.dsr_cert.specs.Certificates as said;
ghost use Rattle.dsr_cert.specs.Certificates.{certificate_text, ended, ended_lines};

use dsr_answers::{push, push_number};
use dsr_ir::{NoMemory, Spec};
use dsr_plan_theory::{Choice, Row, Way};
use std::alloc::Global;

/// Appends what stands before the way of a literal; conjunctions and literals count from 0.
pub fn push_position(text: &mut Vec<u8>, conj: usize, literal: usize) -> Result<(), NoMemory>
    requires conj { conj + 1 < 2 ^ 64 }
    requires literal { literal + 1 < 2 ^ 64 }
    ensures { OnOk result (text.new.items ≡ text.old.items ++ said.before_way conj literal) }
{
    push(text, b"  ")?;
    push_number(text, conj as u64 + 1)?;
    push(text, b".")?;
    push_number(text, literal as u64 + 1)?;
    push(text, b" ")
}

fn push_way(text: &mut Vec<u8>, way: &Way) -> Result<(), NoMemory>
    ensures { OnOk result (text.new.items ≡ text.old.items ++ said.way_text way.now) }
{
    match way {
        Way::Test => push(text, b"test"),
        Way::By(number, _) => {
            push(text, b"way ")?;
            push_number(text, u64::from(*number))
        }
    }
}

// Appends the line of a literal.
fn push_literal(text: &mut Vec<u8>, conj: usize, literal: usize, way: &Way) -> Result<(), NoMemory>
    requires conj { conj + 1 < 2 ^ 64 }
    requires literal { literal + 1 < 2 ^ 64 }
    ensures { OnOk result (text.new.items ≡ text.old.items
        ++ ended (said.way_line conj literal way.now)) }
{
    push_position(text, conj, literal)?;
    push_way(text, way)?;
    push(text, b"\n")
}

// Appends the lines of a conjunction's literals.
fn push_conj(text: &mut Vec<u8>, conj: usize, ways: &[Way]) -> Result<(), NoMemory>
    requires conj { conj + 1 < 2 ^ 64 }
    ensures { OnOk result (text.new.items ≡ text.old.items
        ++ ended_lines (said.conj_lines conj ways.now)) }
{
    for (literal, way) in ways.iter().enumerate() {
        push_literal(text, conj, literal, way)?;
    }
    Ok(())
}

// The name of the constraint with this number.
fn name_at(spec: &Spec, number: usize) -> &[u8]
    ensures { result.now ≡ texts.constraint_name spec.now number }
{
    match spec.constraints.items().get(number) {
        Some(constraint) => constraint.name.bytes(),
        None => b"",
    }
}

/// Appends what stands before the level of a constraint.
pub fn push_name(text: &mut Vec<u8>, spec: &Spec, number: usize) -> Result<(), NoMemory>
    ensures { OnOk result (text.new.items ≡ text.old.items ++ said.before_level spec.now number) }
{
    push(text, b"constraint ")?;
    push(text, name_at(spec, number))?;
    push(text, b" ")
}

// Appends the line of a constraint.
fn push_constraint(
    text: &mut Vec<u8>,
    spec: &Spec,
    number: usize,
    level: u32,
) -> Result<(), NoMemory>
    ensures { OnOk result (text.new.items ≡ text.old.items
        ++ ended (said.constraint_line spec.now number level)) }
{
    push_name(text, spec, number)?;
    push_number(text, u64::from(level))?;
    push(text, b"\n")
}

// Appends the lines of a constraint's literals.
fn push_conjs(text: &mut Vec<u8>, row: &Row) -> Result<(), NoMemory>
    ensures { OnOk result (text.new.items ≡ text.old.items
        ++ ended_lines (said.conjs_lines row.now.ways)) }
{
    for (conj, ways) in row.ways.items().iter().enumerate() {
        push_conj(text, conj, ways.items())?;
    }
    Ok(())
}

// Appends the line of a constraint and those of its literals.
fn push_row(text: &mut Vec<u8>, spec: &Spec, number: usize, row: &Row) -> Result<(), NoMemory>
    ensures { OnOk result (text.new.items ≡ text.old.items
        ++ ended_lines (said.row_lines spec.now number row.now)) }
{
    push_constraint(text, spec, number, row.level)?;
    push_conjs(text, row)
}

// Appends the lines of all constraints and their literals.
fn push_rows(text: &mut Vec<u8>, spec: &Spec, rows: &[Row]) -> Result<(), NoMemory>
    ensures { OnOk result (text.new.items ≡ text.old.items
        ++ ended_lines (said.rows_lines spec.now rows.now)) }
{
    for (number, row) in rows.iter().enumerate() {
        push_row(text, spec, number, row)?;
    }
    Ok(())
}

/// The text of a choice.
pub fn write_cert(alloc: Global, spec: &Spec, choice: &Choice) -> Result<Vec<u8>, NoMemory>
    ensures { IfOk result (λ text. text.items ≡ certificate_text spec.now choice.now) }
{
    let mut text = Vec::new(alloc);
    push(&mut text, b"certificate 1\n")?;
    push_rows(&mut text, spec, choice.rows.items())?;
    push(&mut text, b"end\n")?;
    Ok(text)
}
