// Bytes of an image.
ghost use Rattle.std.specs.Prelude.{◌≡◌, ◌<◌, ◌≤◌, length, slice_set};
ghost use Rattle.dsr_image.specs.Images.{AreClaimed};
ghost use Rattle.dsr_step_theory.specs.Resets as resets;
ghost use Rattle.dsr_meaning.specs.Limits.{most_bytes};

use dsr_image::ImageBytes;
use dsr_ir::{Cell, Order};

// A byte as a cell.
fn byte_cell(place: u64) -> Cell
    requires { place ≤ most_bytes }
    ensures { result ≡ resets.byte_cell place }
{
    Cell {
        bit: 8 * place,
        width: 8,
        bytewise: true,
        order: Order::Little,
    }
}

/// Puts a byte at a place of an image, all of which is claimed.
pub fn put_byte<I: ImageBytes>(image: &mut I, place: u64, byte: u8)
    requires small { length (I.ImageBytes.bytes image.old) ≤ most_bytes }
    requires within { place < length (I.ImageBytes.bytes image.old) }
    requires claimed { AreClaimed (I.ImageBytes.claimed image.old) 0
        (length (I.ImageBytes.bytes image.old)) }
    ensures bytes { I.ImageBytes.bytes image.new
        ≡ slice_set (I.ImageBytes.bytes image.old) place byte }
    ensures kept { I.ImageBytes.claimed image.new ≡ I.ImageBytes.claimed image.old }
{
    image.put(&byte_cell(place), u64::from(byte));
}
