// A step, made on an image.
ghost use Rattle.std.specs.Prelude.{◌≡◌, All, OnErr, OnOk, length};
ghost use Rattle.dsr_image.specs.Images.{StayClaimed};
ghost use Rattle.dsr_repair.specs.Making as said;
ghost use Rattle.dsr_repair.specs.Making.{IsToldBy};
ghost use Rattle.dsr_step_theory.specs.Images.{IsFree};
ghost use Rattle.dsr_step_theory.specs.Steps.{CanStep};

use crate::drafts::Draft;
use crate::entries::{make_room, reset_fresh, set_all};
use crate::notes::{claim_spans, keep_changed, note_all};
use crate::touched::touched;
use dsr_image::ImageBytes;
use dsr_ir::{Layout, NoMemory, Spec, Update};
use dsr_log::{EntryHead, EntryRef, Log};
use dsr_step_theory::Step;

// What is told of a step beside what it changes.
fn head_of(step: &Step) -> EntryHead
    ensures { result ≡ said.head_of step.now }
{
    EntryHead {
        constraint: step.constraint,
        binding: step.binding,
        conj: step.conj,
        literal: step.literal,
        rule: step.rule,
        reset: step.fresh,
    }
}

/// Makes a step by this update: resets its fresh record, and then makes the writes of the update,
/// each unless what it wants holds already. No write names a fixed field, on which the layout may
/// rest. An entry that tells the step is pushed. Where memory is wanting, the bytes and the entries
/// are as before, but that more of the bytes may be claimed.
pub fn make<I: ImageBytes>(
    spec: &Spec,
    layout: &Layout,
    step: &Step,
    update: &Update,
    image: &mut I,
    draft: &mut Draft,
    log: &mut Log,
) -> Result<(), NoMemory>
    requires can { CanStep spec.now layout.now step.now update.now
        (length (I.ImageBytes.bytes image.old)) }
    requires free { All (IsFree spec.now) update.now.writes }
    ensures made { OnOk result (IsToldBy spec.now layout.now step.now update.now
        (I.ImageBytes.bytes image.old) (I.ImageBytes.bytes image.new)
        log.old.entries log.new.entries) }
    ensures same { OnErr result (I.ImageBytes.bytes image.new ≡ I.ImageBytes.bytes image.old) }
    ensures logged { OnErr result (log.new.entries ≡ log.old.entries) }
    ensures kept { StayClaimed (I.ImageBytes.claimed image.old) (I.ImageBytes.claimed image.new) }
{
    // All memory is taken and all is claimed before a byte is written.
    let writes = update.writes.items();
    touched(layout, step, writes, &mut draft.spans)?;
    note_all(&draft.spans, image, &mut draft.bytes)?;
    make_room(&mut draft.sets, writes.len())?;
    log.reserve(writes.len(), draft.bytes.len())?;
    claim_spans(&draft.spans, image)?;
    reset_fresh(spec, layout, step, image);
    set_all(spec, layout, step, writes, image, &mut draft.sets);
    keep_changed(image, &mut draft.bytes);
    log.push(&EntryRef::new(head_of(step), &draft.sets, &draft.bytes));
    Ok(())
}
