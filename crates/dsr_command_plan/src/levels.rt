// The levels of a plan, as text.
ghost use Rattle.std.specs.Prelude.{◌≡◌, ◌++◌, IfOk, OnOk, length};
ghost use Rattle.std.specs.List.{flat_map, range_with_len};
ghost use Rattle.dsr_answers.specs.Texts.{constraint_name};
ghost use Rattle.dsr_command_plan.specs.Levels as said;
ghost use Rattle.dsr_script.specs.Moves.{shown};

use dsr_answers::{push, push_number};
use dsr_ir::{NoMemory, Spec};
use dsr_plan_theory::{Choice, Row};
use dsr_script::{Told, Verdict};
use std::alloc::Global;

/// How many levels a choice has, from 0 to the highest on which a constraint stands.
pub fn level_count(choice: &Choice) -> u64
    ensures { result ≡ said.level_count choice.now.rows }
{
    let mut count = 0;
    for row in choice.rows.items() {
        count = u64::max(count, u64::from(row.level) + 1);
    }
    count
}

// Whether the constraint with this number stands on the level.
fn is_on(rows: &[Row], level: u64, number: usize) -> bool
    ensures { result ≡ said.is_on rows.now level number }
{
    match rows.get(number) {
        Some(row) => u64::from(row.level) == level,
        None => false,
    }
}

// The name of the constraint with this number.
fn name(spec: &Spec, number: usize) -> &[u8]
    ensures { result.now ≡ constraint_name spec.now number }
{
    match spec.constraints.items().get(number) {
        Some(constraint) => constraint.name.bytes(),
        None => b"",
    }
}

// Appends the name of the constraint with this number, where it stands on the level.
fn push_on(
    text: &mut Vec<u8>,
    spec: &Spec,
    rows: &[Row],
    level: u64,
    number: usize,
) -> Result<(), NoMemory>
    ensures { OnOk result (text.new.items ≡ text.old.items
        ++ said.name_on spec.now rows.now level number) }
{
    if is_on(rows, level, number) {
        push(text, b" ")?;
        push(text, name(spec, number))?;
    }
    Ok(())
}

// Appends the names of the constraints on the level.
fn push_names(text: &mut Vec<u8>, spec: &Spec, rows: &[Row], level: u64) -> Result<(), NoMemory>
    ensures { OnOk result (text.new.items ≡ text.old.items
        ++ flat_map (said.name_on spec.now rows.now level) (range_with_len 0 (length rows.now))) }
{
    for number in 0..rows.len() {
        push_on(text, spec, rows, level, number)?;
    }
    Ok(())
}

// Appends the line of a level.
fn push_level(text: &mut Vec<u8>, spec: &Spec, rows: &[Row], level: u64) -> Result<(), NoMemory>
    ensures { OnOk result (text.new.items ≡ text.old.items
        ++ said.level_line spec.now rows.now level) }
{
    push(text, b"level ")?;
    push_number(text, level)?;
    push_names(text, spec, rows, level)?;
    push(text, b"\n")
}

// Appends the lines of the levels below a number.
fn push_levels(text: &mut Vec<u8>, spec: &Spec, rows: &[Row], count: u64) -> Result<(), NoMemory>
    ensures { OnOk result (text.new.items ≡ text.old.items
        ++ flat_map (said.level_line spec.now rows.now) (range_with_len 0 count)) }
{
    for level in 0..count {
        push_level(text, spec, rows, level)?;
    }
    Ok(())
}

/// The answer that a specification has this plan.
pub fn accepted(alloc: Global, spec: &Spec, choice: &Choice) -> Result<Told, NoMemory>
    ensures { IfOk result (λ told. shown told ≡ said.accepted_answer spec.now choice.now) }
{
    let count = level_count(choice);
    let mut text = Vec::new(alloc);
    push_levels(&mut text, spec, choice.rows.items(), count)?;
    push(&mut text, b"accepted ")?;
    push_number(&mut text, count)?;
    push(&mut text, b"\n")?;
    Ok(Told {
        verdict: Verdict::Ok,
        text,
    })
}
