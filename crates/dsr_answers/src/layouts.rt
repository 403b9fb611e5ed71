// Refusals of an image that has no layout.
ghost use Rattle.std.specs.Prelude.{◌≡◌, ◌≢◌, ◌++◌, IfOk, OnOk};
ghost use Rattle.dsr_answers.specs.Texts.{layout_answer, layout_text};
ghost use Rattle.dsr_layout.specs.Telling.{told_as};
ghost use Rattle.dsr_layout.specs.declared.faults.LayoutFault.TheVariants as faults;
ghost use Rattle.dsr_meaning.specs.Refusals as meaning;
ghost use Rattle.dsr_script.specs.Moves.{shown};

use crate::names::{constraint_name, field_name, pool_name, structure_name};
use crate::texts::{push, push_named};
use dsr_ir::{NoMemory, Spec};
use dsr_layout::LayoutFault;
use dsr_script::{Told, Verdict};
use std::alloc::Global;

// Appends a word with two names behind it.
fn push_names(
    text: &mut Vec<u8>,
    word: &[u8],
    first: &[u8],
    between: &[u8],
    second: &[u8],
) -> Result<(), NoMemory>
    ensures { OnOk result (text.new.items ≡ text.old.items
        ++ word.now ++ first.now ++ between.now ++ second.now) }
{
    push_named(text, word, first)?;
    push_named(text, between, second)
}

// Appends why an image has no layout; want of memory says nothing of it.
fn push_fault(text: &mut Vec<u8>, spec: &Spec, fault: LayoutFault) -> Result<(), NoMemory>
    ensures told { OnOk result ((refusal : meaning.Refusal) → told_as refusal ≡ fault →
        text.new.items ≡ text.old.items ++ layout_text spec.now refusal) }
    ensures known { OnOk result (fault ≢ faults.NoMemory) }
{
    match fault {
        LayoutFault::Short => push(text, b"1 short"),
        LayoutFault::Arith => push(text, b"2 arith"),
        LayoutFault::Outside(pool) => push_named(text, b"3 outside ", pool_name(spec, pool)),
        LayoutFault::Overlap(first, second) => push_names(
            text,
            b"4 overlap ",
            pool_name(spec, first),
            b" ",
            pool_name(spec, second),
        ),
        LayoutFault::Subtype(pool, structure) => push_names(
            text,
            b"5 subtype ",
            pool_name(spec, pool),
            b" ",
            structure_name(spec, structure),
        ),
        LayoutFault::Zero(pool) => push_named(text, b"6 zero ", pool_name(spec, pool)),
        LayoutFault::NoneIsCode(pool) => push_named(text, b"7 none ", pool_name(spec, pool)),
        LayoutFault::CodeTooWide(pool, structure, field) => {
            push_names(
                text,
                b"8 code ",
                pool_name(spec, pool),
                b" ",
                structure_name(spec, structure),
            )?;
            push_named(text, b".", field_name(spec, structure, field))
        }
        LayoutFault::CountTooWide(constraint) => {
            push_named(text, b"9 count ", constraint_name(spec, constraint))
        }
        LayoutFault::Instances => push(text, b"10 instances"),
        LayoutFault::NoMemory => Err(NoMemory),
    }
}

/// The refusal of an image that has no layout. Want of memory refuses nothing.
pub fn layout_refused(alloc: Global, spec: &Spec, fault: LayoutFault) -> Result<Told, NoMemory>
    ensures told { IfOk result (λ told. (refusal : meaning.Refusal) → told_as refusal ≡ fault →
        shown told ≡ layout_answer spec.now refusal) }
    ensures known { IfOk result (λ _. fault ≢ faults.NoMemory) }
{
    let mut text = Vec::new(alloc);
    push(&mut text, b"layout ")?;
    push_fault(&mut text, spec, fault)?;
    push(&mut text, b"\n")?;
    Ok(Told {
        verdict: Verdict::LayoutRefused,
        text,
    })
}
