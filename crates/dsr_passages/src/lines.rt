// Lines of a text, and where a place stands in them.
use crate::scene::part;
use dsr_ir::NoMemory;
use dsr_wording::Text;
use std::alloc::Global;

// How many bytes of a line are shown before a place and behind it.
const WINDOW: usize = 70;

/// Where a place stands: its line and column, counted from 1, and the bytes of the line before it
/// and behind.
#[derive(Clone, Copy)]
pub struct Spot<'a> {
    pub line: usize,
    pub column: usize,
    pub before: &'a [u8],
    pub behind: &'a [u8],
}

fn line_feeds(text: &[u8]) -> usize {
    text.iter().filter(|byte| **byte == b'\n').count()
}

// The bytes behind the last line feed.
fn last_line(text: &[u8]) -> &[u8] {
    match text.iter().rposition(|byte| *byte == b'\n') {
        Some(end) => part(text, end.saturating_add(1), text.len()),
        None => text,
    }
}

// The bytes before the first line feed.
fn first_line(text: &[u8]) -> &[u8] {
    match text.iter().position(|byte| *byte == b'\n') {
        Some(end) => part(text, 0, end),
        None => text,
    }
}

/// Where a place stands in a text.
pub fn spot_of(text: &[u8], place: usize) -> Spot<'_> {
    let front = part(text, 0, place);
    let before = last_line(front);
    Spot {
        line: line_feeds(front).saturating_add(1),
        column: before.len().saturating_add(1),
        before,
        behind: first_line(part(text, place, text.len())),
    }
}

/// The number of the line in which a place stands.
pub fn line_of(text: &[u8], place: u64) -> usize {
    spot_of(text, place as usize).line
}

// Appends some bytes, with a space for what has no width of its own, and tells how many letters
// they are.
fn push_plain(alloc: Global, text: &mut Text, bytes: &[u8]) -> Result<usize, NoMemory> {
    let plain = String::from_utf8_lossy(alloc, bytes)?;
    let mut count: usize = 0;
    for letter in plain.as_str().chars() {
        text.push_letter(if letter.is_control() { ' ' } else { letter });
        count = count.saturating_add(1);
    }
    Ok(count)
}

/// Appends what is shown of the line before the place, of a long one its end, and tells how many
/// letters it is.
pub fn push_before(alloc: Global, text: &mut Text, spot: &Spot<'_>) -> Result<usize, NoMemory> {
    let len = spot.before.len();
    if len <= WINDOW {
        return push_plain(alloc, text, spot.before);
    }
    text.push("..");
    let end = part(spot.before, len.saturating_sub(WINDOW), len);
    Ok(push_plain(alloc, text, end)?.saturating_add(2))
}

/// Appends what is shown of the line from the place on, of a long one its front, and tells how
/// many letters it is.
pub fn push_behind(alloc: Global, text: &mut Text, spot: &Spot<'_>) -> Result<usize, NoMemory> {
    if spot.behind.len() <= WINDOW {
        return push_plain(alloc, text, spot.behind);
    }
    let count = push_plain(alloc, text, part(spot.behind, 0, WINDOW))?;
    text.push("..");
    Ok(count.saturating_add(2))
}
