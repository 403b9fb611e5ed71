// Verdicts on an image.
ghost use Rattle.std.specs.Prelude.{◌≡◌, ◌++◌, IfOk, OnOk, map};
ghost use Rattle.dsr_answers.specs.Texts.{verdict_answer, violation_line};
ghost use Rattle.dsr_script.specs.Moves.{shown};
ghost use Rattle.dsr_meaning.specs.Consistency.{bound_constraint};

use crate::names::{constraint_name, push_binding};
use crate::texts::{push, push_number, told};
use dsr_ir::{Binding, NoMemory, Spec};
use dsr_script::{Told, Verdict};
use std::alloc::Global;

// Appends the line of a violated binding.
fn push_violation(
    text: &mut Vec<u8>,
    spec: &Spec,
    constraint: u32,
    binding: &Binding,
) -> Result<(), NoMemory>
    ensures { OnOk result (text.new.items ≡ text.old.items
        ++ violation_line spec.now (bound_constraint (constraint, binding.now))) }
{
    push(text, b"violated ")?;
    push(text, constraint_name(spec, constraint))?;
    push(text, b" ")?;
    push_binding(text, spec, binding)?;
    push(text, b"\n")
}

/// The verdict by the violated bindings of an image.
pub fn verdict(alloc: Global, spec: &Spec, violations: &[(u32, Binding)]) -> Result<Told, NoMemory>
    ensures { IfOk result (λ told.
        shown told ≡ verdict_answer spec.now (map bound_constraint violations.now)) }
{
    if violations.is_empty() {
        return told(alloc, Verdict::Ok, b"consistent\n");
    }
    let mut text = Vec::new(alloc);
    for (constraint, binding) in violations {
        push_violation(&mut text, spec, *constraint, binding)?;
    }
    push(&mut text, b"inconsistent ")?;
    push_number(&mut text, violations.len() as u64)?;
    push(&mut text, b"\n")?;
    Ok(Told {
        verdict: Verdict::Inconsistent,
        text,
    })
}
