// What is told of a repair.
ghost use Rattle.std.specs.Prelude.{◌≡◌, ◌+◌, ◌++◌, IfOk, OnOk, codes, decimal};
ghost use Rattle.dsr_command_image.specs.Repaired as said;
ghost use Rattle.dsr_script.specs.Moves.{shown};

use dsr_answers::{constraint_name, pool_name, push, push_binding, push_named, push_number};
use dsr_ir::{NoMemory, Spec};
use dsr_repair_theory::Need;
use dsr_report::push_end;
use dsr_script::{Told, Verdict};

// Appends the literal for which a record is needed: its conjunction and itself, counted from 1.
fn push_literal(text: &mut Vec<u8>, need: &Need) -> Result<(), NoMemory>
    ensures { OnOk result (text.new.items ≡ text.old.items
        ++ decimal (need.now.conj + 1) ++ codes "." ++ decimal (need.now.literal + 1)) }
{
    push_number(text, u64::from(need.conj) + 1)?;
    push(text, b".")?;
    push_number(text, u64::from(need.literal) + 1)
}

// Appends the line of what is needed.
fn push_need(text: &mut Vec<u8>, spec: &Spec, need: &Need) -> Result<(), NoMemory>
    ensures { OnOk result (text.new.items ≡ text.old.items ++ said.empty_line spec.now need.now) }
{
    push_named(text, b"empty ", pool_name(spec, need.pool))?;
    push_named(text, b" ", constraint_name(spec, need.constraint))?;
    push(text, b" ")?;
    push_binding(text, spec, &need.binding)?;
    push(text, b" ")?;
    push_literal(text, need)?;
    push(text, b"\n")
}

/// The answer that steps made an image consistent, by the lines that tell them and how many they
/// are.
pub fn report_told(text: Vec<u8>, count: u64) -> Result<Told, NoMemory>
    ensures { IfOk result (λ told. shown told ≡ said.ended_answer text.items count) }
{
    let mut text = text;
    push_end(&mut text, count)?;
    Ok(Told {
        verdict: Verdict::Ok,
        text,
    })
}

/// The answer that a repair stopped after steps that these lines tell, so many of them, where a
/// supply has no record that it needs.
pub fn need_told(text: Vec<u8>, spec: &Spec, count: u64, need: &Need) -> Result<Told, NoMemory>
    ensures { IfOk result (λ told.
        shown told ≡ said.stopped_answer spec.now text.items count need.now) }
{
    let mut text = text;
    push_end(&mut text, count)?;
    push_need(&mut text, spec, need)?;
    Ok(Told {
        verdict: Verdict::SupplyEmpty,
        text,
    })
}
