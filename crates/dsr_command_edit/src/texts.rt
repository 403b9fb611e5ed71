// What is told of edits.
ghost use Rattle.std.specs.Prelude.{◌≡◌, IfOk};
ghost use Rattle.dsr_command_edit.specs.Edited as said;
ghost use Rattle.dsr_meaning.specs.Consistency.{bound_constraint};
ghost use Rattle.dsr_script.specs.Moves.{shown};

use dsr_answers::{constraint_name, push, push_binding, push_named, push_number};
use dsr_ir::{Binding, NoMemory, Spec};
use dsr_script::{Told, Verdict};
use std::alloc::Global;

/// The answer that a line isn't of the form.
pub fn unread_told(alloc: Global, line: u64) -> Result<Told, NoMemory>
    ensures { IfOk result (λ told. shown told ≡ said.unread_answer line) }
{
    let mut text = Vec::new(alloc);
    push(&mut text, b"edit 1 ")?;
    push_number(&mut text, line)?;
    push(&mut text, b"\n")?;
    Ok(Told {
        verdict: Verdict::EditRefused,
        text,
    })
}

/// The answer that what a line sets can't be set.
pub fn unwritable_told(alloc: Global, line: u64) -> Result<Told, NoMemory>
    ensures { IfOk result (λ told. shown told ≡ said.unwritable_answer line) }
{
    let mut text = Vec::new(alloc);
    push(&mut text, b"edit 2 ")?;
    push_number(&mut text, line)?;
    push(&mut text, b"\n")?;
    Ok(Told {
        verdict: Verdict::EditRefused,
        text,
    })
}

/// The answer that a constraint would be violated after a group.
pub fn broken_told(
    alloc: Global,
    spec: &Spec,
    group: u64,
    constraint: u32,
    binding: &Binding,
) -> Result<Told, NoMemory>
    ensures { IfOk result (λ told. shown told
        ≡ said.broken_answer spec.now group (bound_constraint (constraint, binding.now))) }
{
    let mut text = Vec::new(alloc);
    push(&mut text, b"edit 3 ")?;
    push_number(&mut text, group)?;
    push_named(&mut text, b" ", constraint_name(spec, constraint))?;
    push(&mut text, b" ")?;
    push_binding(&mut text, spec, binding)?;
    push(&mut text, b"\n")?;
    Ok(Told {
        verdict: Verdict::EditRefused,
        text,
    })
}

/// The answer that so many groups were made.
pub fn edited_told(alloc: Global, groups: u64) -> Result<Told, NoMemory>
    ensures { IfOk result (λ told. shown told ≡ said.edited_answer groups) }
{
    let mut text = Vec::new(alloc);
    push(&mut text, b"edited ")?;
    push_number(&mut text, groups)?;
    push(&mut text, b"\n")?;
    Ok(Told {
        verdict: Verdict::Ok,
        text,
    })
}
