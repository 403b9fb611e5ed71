// Names that are close to another one.
use dsr_ir::NoMemory;
use dsr_wording::text_of;
use std::alloc::Global;
use strsim::osa_distance;

// How many letters may differ.
fn leave(len: usize) -> usize {
    match len {
        0..=2 => 0,
        3..=7 => 1,
        _ => 2,
    }
}

/// Whether one word may have been meant by the other one.
pub fn is_near(alloc: Global, word: &[u8], meant: &[u8]) -> Result<bool, NoMemory> {
    if word.eq_ignore_ascii_case(meant) {
        return Ok(true);
    }
    let distance = osa_distance(alloc, text_of(word), text_of(meant))?;
    Ok(distance <= leave(word.len().max(meant.len())))
}

/// The first of some words that may have been meant by another one.
pub fn meant_by<'a>(
    alloc: Global,
    word: &[u8],
    known: &[&'a [u8]],
) -> Result<Option<&'a [u8]>, NoMemory> {
    for meant in known {
        if *meant != word && is_near(alloc, word, meant)? {
            return Ok(Some(*meant));
        }
    }
    Ok(None)
}
