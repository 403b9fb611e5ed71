// The bytes that a step may change: claimed and noted before it, compared afterwards.
ghost use Rattle.std.specs.Prelude.{◌≡◌, ◌≤◌, ◌<◌, ◌-◌, ◌++◌, All, OnOk, length};
ghost use Rattle.dsr_image.specs.Images.{StayClaimed};
ghost use Rattle.dsr_repair.specs.Notes.{AreNoted, changed, notes_of};
ghost use Rattle.dsr_repair.specs.Spans.{AreSpansClaimed, AreWithin};

use crate::spans::{Span, next_span};
use dsr_image::ImageBytes;
use dsr_ir::NoMemory;
use dsr_repair_theory::ByteChange;

/// Claims the bytes of all spans.
pub fn claim_spans<I: ImageBytes>(spans: &[Span], image: &mut I) -> Result<(), NoMemory>
    requires within { AreWithin spans.now (length (I.ImageBytes.bytes image.old)) }
    ensures bytes { I.ImageBytes.bytes image.new ≡ I.ImageBytes.bytes image.old }
    ensures claimed { OnOk result (AreSpansClaimed spans.now (I.ImageBytes.claimed image.new)) }
    ensures kept { StayClaimed (I.ImageBytes.claimed image.old) (I.ImageBytes.claimed image.new) }
{
    for span in spans {
        image.claim(span.start, span.end - span.start)?;
    }
    Ok(())
}

// Notes the bytes of a span, behind those that are noted.
fn note_span<I: ImageBytes>(
    span: Span,
    image: &I,
    notes: &mut Vec<ByteChange>,
) -> Result<(), NoMemory>
    requires ordered { span.start ≤ span.end }
    requires inside { span.end ≤ length (I.ImageBytes.bytes image.now) }
    ensures { OnOk result (notes.new.items ≡ notes.old.items
        ++ notes_of (I.ImageBytes.bytes image.now) span.start (span.end - span.start)) }
{
    for place in span.start..span.end {
        let byte = image.byte(place);
        notes.push(ByteChange {
            place,
            old: byte,
            new: byte,
        })?;
    }
    Ok(())
}

/// Notes each byte of the spans once, by rising place, and no other ones.
pub fn note_all<I: ImageBytes>(
    spans: &[Span],
    image: &I,
    notes: &mut Vec<ByteChange>,
) -> Result<(), NoMemory>
    requires within { AreWithin spans.now (length (I.ImageBytes.bytes image.now)) }
    ensures { OnOk result (AreNoted spans.now (I.ImageBytes.bytes image.now) 0 notes.new.items) }
{
    notes.clear();
    let mut from = 0;
    while let Some(span) = next_span(spans, from) {
        note_span(span, image, notes)?;
        from = span.end;
    }
    Ok(())
}

/// Keeps those of the noted bytes that are others now. Takes no memory.
pub fn keep_changed<I: ImageBytes>(image: &I, notes: &mut Vec<ByteChange>)
    requires { All (λ n. n.place < length (I.ImageBytes.bytes image.now)) notes.old.items }
    ensures { notes.new.items ≡ changed (I.ImageBytes.bytes image.now) notes.old.items }
{
    for note in notes.iter_mut() {
        note.new = image.byte(note.place);
    }
    notes.retain(|note| note.old != note.new);
}
