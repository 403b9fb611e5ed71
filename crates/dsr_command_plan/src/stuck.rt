// What stands in the way of a plan, as text.
ghost use Rattle.std.specs.Prelude.{◌≡◌, ◌++◌, IfOk, OnOk};
ghost use Rattle.std.specs.List.{flat_map};
ghost use Rattle.dsr_command_plan.specs.StuckTexts as said;
ghost use Rattle.dsr_script.specs.Moves.{shown};

use dsr_answers::{constraint_name, push, push_number, symbol_name};
use dsr_graph_theory::Reason;
use dsr_ir::{NoMemory, Spec, Symbol};
use dsr_plan_theory::{StuckEnd, StuckMember, StuckSet, StuckWay};
use dsr_script::{Told, Verdict};
use std::alloc::Global;

/// Appends a word with a constraint's name behind it.
pub fn push_named(
    text: &mut Vec<u8>,
    word: &[u8],
    spec: &Spec,
    constraint: u32,
) -> Result<(), NoMemory>
    ensures { OnOk result (text.new.items ≡ text.old.items
        ++ said.named word.now spec.now constraint) }
{
    push(text, word)?;
    push(text, constraint_name(spec, constraint))
}

// Appends a line of a word with a constraint's name behind it.
fn push_line(text: &mut Vec<u8>, word: &[u8], spec: &Spec, constraint: u32) -> Result<(), NoMemory>
    ensures { OnOk result (text.new.items ≡ text.old.items ++ said.line word.now spec.now constraint) }
{
    push_named(text, word, spec, constraint)?;
    push(text, b"\n")
}

// Appends a word with the name of a set or a relation behind it.
fn push_change(text: &mut Vec<u8>, word: &[u8], spec: &Spec, symbol: Symbol) -> Result<(), NoMemory>
    ensures { OnOk result (text.new.items ≡ text.old.items ++ said.change word.now spec.now symbol) }
{
    push(text, word)?;
    push(text, symbol_name(spec, symbol))
}

// Appends why a template breaks a constraint.
fn push_reason(text: &mut Vec<u8>, spec: &Spec, reason: Reason) -> Result<(), NoMemory>
    ensures { OnOk result (text.new.items ≡ text.old.items ++ said.reason_text spec.now reason) }
{
    match reason {
        Reason::Gain(symbol) => push_change(text, b" by gain of ", spec, symbol),
        Reason::Loss(symbol) => push_change(text, b" by loss of ", spec, symbol),
    }
}

// Appends the numbers of a conjunction, a literal and a template, each counted from 1.
fn push_place(text: &mut Vec<u8>, way: &StuckWay) -> Result<(), NoMemory>
    ensures { OnOk result (text.new.items ≡ text.old.items ++ said.place_text way.now) }
{
    push_number(text, u64::from(way.conj) + 1)?;
    push(text, b".")?;
    push_number(text, u64::from(way.literal) + 1)?;
    push(text, b".")?;
    push_number(text, u64::from(way.way))
}

// Appends the line of a template that breaks a member.
fn push_way(text: &mut Vec<u8>, spec: &Spec, way: &StuckWay) -> Result<(), NoMemory>
    ensures { OnOk result (text.new.items ≡ text.old.items ++ said.way_line spec.now way.now) }
{
    push(text, b"  way ")?;
    push_place(text, way)?;
    push_named(text, b" breaks ", spec, way.breaks)?;
    push_reason(text, spec, way.reason)?;
    push(text, b"\n")
}

fn push_ways(text: &mut Vec<u8>, spec: &Spec, ways: &[StuckWay]) -> Result<(), NoMemory>
    ensures { OnOk result (text.new.items ≡ text.old.items
        ++ flat_map (said.way_line spec.now) ways.now) }
{
    for way in ways {
        push_way(text, spec, way)?;
    }
    Ok(())
}

// Appends the line of the member that relies on another one, if there is one.
fn push_relier(text: &mut Vec<u8>, spec: &Spec, relier: Option<u32>) -> Result<(), NoMemory>
    ensures { OnOk result (text.new.items ≡ text.old.items ++ said.relier_line spec.now relier) }
{
    match relier {
        Some(relier) => push_line(text, b"  relied by ", spec, relier),
        None => Ok(()),
    }
}

// Appends the lines of a member.
fn push_member(text: &mut Vec<u8>, spec: &Spec, member: &StuckMember) -> Result<(), NoMemory>
    ensures { OnOk result (text.new.items ≡ text.old.items ++ said.member_lines spec.now member.now) }
{
    push_line(text, b"stuck ", spec, member.constraint)?;
    push_relier(text, spec, member.relied_by)?;
    push_ways(text, spec, member.ways.items())
}

fn push_members(text: &mut Vec<u8>, spec: &Spec, members: &[StuckMember]) -> Result<(), NoMemory>
    ensures { OnOk result (text.new.items ≡ text.old.items
        ++ flat_map (said.member_lines spec.now) members.now) }
{
    for member in members {
        push_member(text, spec, member)?;
    }
    Ok(())
}

// Appends the names of a cycle, each behind a space.
fn push_cycle(text: &mut Vec<u8>, spec: &Spec, numbers: &[u32]) -> Result<(), NoMemory>
    ensures { OnOk result (text.new.items ≡ text.old.items
        ++ flat_map (said.named said.space spec.now) numbers.now) }
{
    for number in numbers {
        push_named(text, b" ", spec, *number)?;
    }
    Ok(())
}

// Appends the last line.
fn push_end(text: &mut Vec<u8>, spec: &Spec, end: &StuckEnd) -> Result<(), NoMemory>
    ensures { OnOk result (text.new.items ≡ text.old.items ++ said.end_line spec.now end.now) }
{
    match end {
        StuckEnd::Unrepairable(constraint) => push_line(text, b"unrepairable ", spec, *constraint),
        StuckEnd::Cycle(numbers) => {
            push(text, b"cycle")?;
            push_cycle(text, spec, numbers.items())?;
            push(text, b"\n")
        }
    }
}

/// The answer that a specification has no plan, with what stands in its way.
pub fn refused(alloc: Global, spec: &Spec, set: &StuckSet) -> Result<Told, NoMemory>
    ensures { IfOk result (λ told. shown told ≡ said.refused_answer spec.now set.now) }
{
    let mut text = Vec::new(alloc);
    push_members(&mut text, spec, set.members.items())?;
    push_end(&mut text, spec, &set.end)?;
    Ok(Told {
        verdict: Verdict::PlanRefused,
        text,
    })
}
