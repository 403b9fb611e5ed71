// Refusals of a text that means no specification.
ghost use Rattle.std.specs.Prelude.{◌≡◌, ◌≢◌, ℕ, List, IfOk};
ghost use Rattle.dsr_answers.specs.Refused.{IsRefused, refused_at, syntax_answer};
ghost use Rattle.dsr_names.specs.FaultsTold.{Tells};
ghost use Rattle.dsr_names.specs.declared.refusals.SpecFault.TheVariants as spec_faults;
ghost use Rattle.dsr_script.specs.Moves.{shown};
ghost use Rattle.dsr_syntax_theory.specs.Parsing.{IsTreeOf};
ghost use Rattle.dsr_tree.specs.Trees.{TreeShape};
ghost use Rattle.dsr_language_theory.specs.Specifications.{specification_faults};

use crate::texts::{push, push_number};
use dsr_ir::NoMemory;
use dsr_names::SpecFault;
use dsr_script::{Told, Verdict};
use std::alloc::Global;

// A refusal at a place of the text, with its kind.
fn refused(alloc: Global, by: &[u8], kind: u8, place: u64) -> Result<Told, NoMemory>
    ensures { IfOk result (λ told. shown told ≡ refused_at by.now kind place) }
{
    let mut text = Vec::new(alloc);
    push(&mut text, by)?;
    push_number(&mut text, u64::from(kind))?;
    push(&mut text, b" ")?;
    push_number(&mut text, place)?;
    push(&mut text, b"\n")?;
    Ok(Told {
        verdict: Verdict::SpecRefused,
        text,
    })
}

/// The refusal of a text by its syntax, with its kind: 1 where no token stands at the place, 2
/// where the token there doesn't go on, and 3 where it goes over a limit.
pub fn syntax_refused(alloc: Global, kind: u8, place: u64) -> Result<Told, NoMemory>
    ensures { IfOk result (λ told. shown told ≡ syntax_answer kind place) }
{
    refused(alloc, b"syntax ", kind, place)
}

/// The refusal of a text by what its tree means. Want of memory refuses nothing.
pub fn meaning_refused(alloc: Global, fault: SpecFault) -> Result<Told, NoMemory>
    ensures told { IfOk result (λ told. (text : List ℕ) (tree : TreeShape) → IsTreeOf text tree →
        Tells (specification_faults tree) fault → IsRefused text (shown told)) }
    ensures known { IfOk result (λ _. fault ≢ spec_faults.NoMemory) }
{
    match fault {
        SpecFault::At { kind, place } => refused(alloc, b"spec ", kind, place),
        SpecFault::NoMemory => Err(NoMemory),
    }
}
