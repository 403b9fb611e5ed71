// One step of a repair, held against an entry.
ghost use Rattle.std.specs.Prelude.{◌≡◌, IfErr, IfOk, IfSome, MatchOption, length};
ghost use Rattle.dsr_image.specs.Images.{AreClaimed};
ghost use Rattle.dsr_replay.specs.Audits.{HaveOneText};
ghost use Rattle.dsr_replay.specs.Steps.{IsMatched, IsMismatch, IsTextFault};
ghost use Rattle.dsr_repair.specs.Cursors.{IsCursorOn};
ghost use Rattle.dsr_repair.specs.Stepping.{IsModelled};
ghost use Rattle.dsr_resolve.specs.Rules.{AreResolved};
ghost use Rattle.dsr_supported.specs.Supported.{IsSupportFor};

use crate::faults::AuditFault;
use crate::texts::{Texts, are_alike};
use dsr_fixed_bits::FixedBits;
use dsr_image::ImageBytes;
use dsr_ir::{Layout, Spec};
use dsr_log::{EntryRef, Log};
use dsr_model::Model;
use dsr_plan_theory::Plan;
use dsr_repair::{Backing, Cursor, Draft, step};
use dsr_repair_theory::Turn;
use dsr_resolve::ResolvedRules;
use dsr_undo::lines_back;

// Why a step isn't told by an entry, if it isn't.
fn mismatch(
    texts: &mut Texts,
    spec: &Spec,
    number: u64,
    told: &EntryRef,
    made: &EntryRef,
) -> Option<AuditFault>
    ensures { MatchOption result (HaveOneText spec.now number told.now made.now)
        (IsTextFault spec.now number told.now made.now) }
{
    match are_alike(texts, spec, number, told, made) {
        Ok(true) => None,
        Ok(false) => Some(AuditFault::Entry(number)),
        Err(_) => Some(AuditFault::NoMemory),
    }
}

/// Makes the step that is due, where it has the entry's text under this number. Else all bytes are
/// as before: a step that was made is taken back. All of the image is claimed, so that this needs
/// no memory. What the draft, the log of the step and the texts held is of no matter.
pub fn replay<I: ImageBytes>(
    plan: &Plan,
    layout: &Layout,
    rules: &ResolvedRules,
    image: &mut I,
    model: &mut Model,
    backing: &mut Backing,
    cursor: &mut Cursor,
    draft: &mut Draft,
    made: &mut Log,
    texts: &mut Texts,
    number: u64,
    told: &EntryRef,
) -> Result<(), AuditFault>
    requires modelled { IsModelled plan.now.0 layout.now (I.ImageBytes.bytes image.old) model.old }
    requires rules { AreResolved plan.now.0 layout.now rules.now }
    requires cursor { IsCursorOn plan.now.0 plan.now.1 layout.now (I.ImageBytes.bytes image.old)
        cursor.old }
    requires backed { IfSome backing.old.support (IsSupportFor plan.now.0 layout.now
        (I.ImageBytes.bytes image.old) rules.now model.old) }
    requires claimed { AreClaimed (I.ImageBytes.claimed image.old) 0
        (length (I.ImageBytes.bytes image.old)) }
    ensures matched { IfOk result (λ _. IsMatched plan.now.0 plan.now.1 layout.now number told.now
        (I.ImageBytes.bytes image.old) (I.ImageBytes.bytes image.new)) }
    ensures modelled { IfOk result (λ _. IsModelled plan.now.0 layout.now
        (I.ImageBytes.bytes image.new) model.new) }
    ensures backed { IfOk result (λ _. IfSome backing.new.support (IsSupportFor plan.now.0
        layout.now (I.ImageBytes.bytes image.new) rules.now model.new)) }
    ensures cursor { IfOk result (λ _. IsCursorOn plan.now.0 plan.now.1 layout.now
        (I.ImageBytes.bytes image.new) cursor.new) }
    ensures claimed { IfOk result (λ _. AreClaimed (I.ImageBytes.claimed image.new) 0
        (length (I.ImageBytes.bytes image.new))) }
    ensures unlike { IfErr result (IsMismatch plan.now.0 plan.now.1 layout.now number told.now
        (I.ImageBytes.bytes image.old)) }
    ensures stays { IfErr result (λ _. I.ImageBytes.bytes image.new
        ≡ I.ImageBytes.bytes image.old) }
{
    let spec = plan.spec();
    made.clear();
    let Turn::Step(_) = step(
        plan, layout, rules, image, model, backing, cursor, draft, made,
    )?
    else {
        return Err(AuditFault::Entry(number));
    };
    let Some(due) = made.entries().next() else {
        unreachable!();
    };
    let Some(fault) = mismatch(texts, spec, number, told, &due) else {
        return Ok(());
    };
    let fixed = FixedBits::new(&spec.base);
    if lines_back(&fixed, number, due.bytes(), image).is_err() {
        unreachable!();
    }
    Err(fault)
}
