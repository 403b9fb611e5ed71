// The lines of one entry, taken back.
ghost use Rattle.std.specs.Prelude.{◌≡◌, ◌≤◌, IfErr, IfOk, MatchBool, length};
ghost use Rattle.dsr_image.specs.Images.{AreClaimed};
ghost use Rattle.dsr_undo_laws.specs.TakingBack.{AreLinesBack, IsLineBack, IsLineRefused, IsRefusedIn, IsThere};
ghost use Rattle.dsr_meaning.specs.Limits.{most_bytes};

use crate::bytes::put_byte;
use dsr_fixed_bits::{FixedBits, changes_fixed};
use dsr_image::ImageBytes;
use dsr_repair_theory::ByteChange;
use dsr_undo_laws::UndoFault;

// Whether the line's new byte stands at its place.
fn is_there<I: ImageBytes>(line: &ByteChange, image: &I) -> bool
    ensures { MatchBool result (IsThere line.now (I.ImageBytes.bytes image.now))
        (IsThere line.now (I.ImageBytes.bytes image.now) → ⊥) }
{
    line.place < image.len() && image.byte(line.place) == line.new
}

// Takes one line back.
fn line_back<I: ImageBytes>(
    fixed: &FixedBits,
    entry: u64,
    line: &ByteChange,
    image: &mut I,
) -> Result<(), UndoFault>
    requires small { length (I.ImageBytes.bytes image.old) ≤ most_bytes }
    requires claimed { AreClaimed (I.ImageBytes.claimed image.old) 0
        (length (I.ImageBytes.bytes image.old)) }
    ensures back { IfOk result (λ _. IsLineBack fixed.now line.now
        (I.ImageBytes.bytes image.old) (I.ImageBytes.bytes image.new)) }
    ensures refused { IfErr result (IsLineRefused fixed.now entry line.now
        (I.ImageBytes.bytes image.old)) }
    ensures stays { IfErr result (λ _. I.ImageBytes.bytes image.new
        ≡ I.ImageBytes.bytes image.old) }
    ensures long { length (I.ImageBytes.bytes image.new) ≡ length (I.ImageBytes.bytes image.old) }
    ensures kept { I.ImageBytes.claimed image.new ≡ I.ImageBytes.claimed image.old }
{
    if !is_there(line, image) {
        return Err(UndoFault::Byte(entry, line.place));
    }
    if changes_fixed(fixed, line) {
        return Err(UndoFault::FixedField(entry, line.place));
    }
    put_byte(image, line.place, line.old);
    Ok(())
}

/// Takes the lines of an entry back, the last first. After a refusal those behind the line are
/// taken back.
pub fn lines_back<I: ImageBytes>(
    fixed: &FixedBits,
    entry: u64,
    lines: &[ByteChange],
    image: &mut I,
) -> Result<(), UndoFault>
    requires small { length (I.ImageBytes.bytes image.old) ≤ most_bytes }
    requires claimed { AreClaimed (I.ImageBytes.claimed image.old) 0
        (length (I.ImageBytes.bytes image.old)) }
    ensures back { IfOk result (λ _. AreLinesBack fixed.now lines.now
        (I.ImageBytes.bytes image.old) (I.ImageBytes.bytes image.new)) }
    ensures refused { IfErr result (IsRefusedIn fixed.now entry lines.now
        (I.ImageBytes.bytes image.old) (I.ImageBytes.bytes image.new)) }
    ensures long { length (I.ImageBytes.bytes image.new) ≡ length (I.ImageBytes.bytes image.old) }
    ensures kept { I.ImageBytes.claimed image.new ≡ I.ImageBytes.claimed image.old }
{
    for done in 0..lines.len() {
        let at = lines.len() - 1 - done;
        if let Err(fault) = line_back(fixed, entry, &lines[at], image) {
            return Err(fault);
        }
    }
    Ok(())
}
