// The sources of rules and constraints: the line and the text of each.
use dsr_passages::spot_of;
use dsr_tree::Tree;
use dsr_wording::{Text, text_of};

// How many bytes of a declaration are shown.
const MOST: usize = 400;

// The bytes up to the first semicolon.
fn up_to_end(text: &[u8]) -> &[u8] {
    let end = match text.iter().position(|byte| *byte == b';') {
        Some(end) => end.saturating_add(1),
        None => text.len(),
    };
    text.get(..end.min(MOST)).unwrap_or(b"")
}

// The line and the text of the declaration that begins at a place.
fn source_at(text: &[u8], place: u64) -> (usize, &[u8]) {
    let place = place as usize;
    let source = up_to_end(text.get(place..).unwrap_or(b""));
    (spot_of(text, place).line, source)
}

/// The line in which a constraint stands, by its number, and its text.
pub fn constraint_source<'a>(text: &'a [u8], tree: &Tree, number: u32) -> (usize, &'a [u8]) {
    match tree.constraints.items().get(number as usize) {
        Some(constraint) => source_at(text, constraint.place),
        None => (0, b""),
    }
}

/// The line in which a rule stands, by its number, and its text.
pub fn rule_source<'a>(text: &'a [u8], tree: &Tree, number: u32) -> (usize, &'a [u8]) {
    match tree.rules.items().get(number as usize) {
        Some(rule) => source_at(text, rule.place),
        None => (0, b""),
    }
}

/// Appends a declaration in one line, with single spaces between its words.
pub fn push_words(text: &mut Text, words: &[u8]) {
    for (place, word) in text_of(words).split_whitespace().enumerate() {
        text.push(if place > 0 { " " } else { "" });
        text.push(word);
    }
}
