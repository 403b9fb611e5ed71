// Where the bytes of an image differ from others.
ghost use Rattle.std.specs.Prelude.{◌≡◌, Decides, MatchOption, Some, slice_get};
ghost use Rattle.dsr_replay.specs.Differences.{IsFirstDifference};

use dsr_image::ImageBytes;

// Whether the byte stands at the place.
fn has_byte<I: ImageBytes>(image: &I, place: u64, byte: u8) -> bool
    ensures { Decides result (slice_get (I.ImageBytes.bytes image.now) place ≡ Some byte) }
{
    place < image.len() && image.byte(place) == byte
}

/// The first place in which the bytes differ from those of an image; where one of both ends there,
/// its length.
pub fn first_difference<I: ImageBytes>(bytes: &[u8], image: &I) -> Option<u64>
    ensures { MatchOption result (bytes.now ≡ I.ImageBytes.bytes image.now)
        (IsFirstDifference bytes.now (I.ImageBytes.bytes image.now)) }
{
    for (place, byte) in bytes.iter().enumerate() {
        if !has_byte(image, place as u64, *byte) {
            return Some(place as u64);
        }
    }
    let count = bytes.len() as u64;
    if count < image.len() {
        Some(count)
    } else {
        None
    }
}
