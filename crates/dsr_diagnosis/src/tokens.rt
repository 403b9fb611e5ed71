// What is told of bytes that begin no token, and of tokens that go over a limit.
use crate::foreign::instead_of_mark;
use dsr_ir::NoMemory;
use dsr_passages::{Declaration, Diagnosis, Scene, Words, keyword_in, length_of, part, sign_in};
use dsr_tree::{Keyword, Lexeme, Sign};
use std::alloc::Global;

// The most bytes of a letter.
const LONGEST_LETTER: usize = 4;

// The bytes of a word at the front.
fn word_at(text: &[u8]) -> &[u8] {
    let end = text
        .iter()
        .position(|byte| !byte.is_ascii_alphanumeric() && *byte != b'_');
    part(text, 0, end.unwrap_or(text.len()))
}

// The letter at the front; none where the bytes there are none.
fn letter_at(alloc: Global, text: &[u8]) -> Result<Option<char>, NoMemory> {
    let front = part(text, 0, text.len().min(LONGEST_LETTER));
    let letters = String::from_utf8_lossy(alloc, front)?;
    match letters.as_str().chars().next() {
        Some('\u{fffd}') => Ok(None),
        letter => Ok(letter),
    }
}

// A digit of a byte in hexadecimal.
fn digit_of(number: u8) -> char {
    char::from_digit(u32::from(number), 16).unwrap_or('?')
}

// What is wrong with a mark that begins no token.
fn say_mark(words: &mut Words, letter: Option<char>, byte: u8) {
    match letter {
        Some(letter) if !letter.is_control() && !letter.is_whitespace() => {
            words.say("no token begins with `");
            words.message.push_letter(letter);
            words.say("`");
        }
        _ => {
            words.say("no token begins with the byte 0x");
            words.message.push_letter(digit_of(byte / 16));
            words.message.push_letter(digit_of(byte % 16));
        }
    }
}

const NUMBER: &str = "the number {} is greater than 18446744073709551615";

// What is wrong with a word that is no token, or with a mark.
fn say_token(words: &mut Words, word: &[u8], letter: Option<char>, byte: u8) {
    if byte.is_ascii_digit() {
        words.say_of(NUMBER, &[word]);
    } else if byte.is_ascii_alphabetic() {
        words.say("this name has ");
        words.message.number(word.len() as u64);
        words.say(" bytes, and a name may have 32");
    } else {
        say_mark(words, letter, byte);
    }
}

/// What is told of bytes that begin no token.
pub fn no_token(alloc: Global, text: &[u8], place: usize) -> Result<Diagnosis, NoMemory> {
    let rest = part(text, place, text.len());
    let word = word_at(rest);
    let letter = letter_at(alloc, rest)?;
    let byte = rest.first().copied().unwrap_or(0);
    let mut words = Words::new(alloc);
    say_token(&mut words, word, letter, byte);
    if let Some(letter) = letter
        && let Some(hint) = instead_of_mark(letter)
    {
        words.hint(hint);
    }
    words.at(place, word.len().max(1))
}

// Which limit a token goes over.
fn limit_message(scene: &Scene<'_>, found: Option<&Lexeme>) -> &'static str {
    let (declaration, _) = scene.declaration();
    let in_formula = declaration == Declaration::Constraint;
    match sign_in(found) {
        Some(Sign::Plus | Sign::Minus | Sign::Times | Sign::Over) => {
            return "an expression has more than 32 operators";
        }
        Some(Sign::OpenParenthesis) if !in_formula => {
            return "parentheses stand more than 32 deep";
        }
        Some(Sign::OpenParenthesis) =>
            return "`not`, `given` and parentheses stand more than 32 deep",
        _ => {}
    }
    match keyword_in(found) {
        Some(Keyword::Not | Keyword::Given) =>
            "`not`, `given` and parentheses stand more than 32 deep",
        _ => "a formula has more than 128 atoms",
    }
}

/// What is told of a token that goes over a limit.
pub fn over_limit(alloc: Global, scene: &Scene<'_>) -> Result<Diagnosis, NoMemory> {
    let found = scene.found();
    let mut words = Words::new(alloc);
    words.say(limit_message(scene, found));
    words.at(place_of(scene, found), length_in(scene, found))
}

/// The place of a token; the text's length where there is none.
pub fn place_of(scene: &Scene<'_>, found: Option<&Lexeme>) -> usize {
    match found {
        Some(lexeme) => lexeme.place as usize,
        None => scene.text.len(),
    }
}

/// The length of a token; 0 where there is none.
pub fn length_in(scene: &Scene<'_>, found: Option<&Lexeme>) -> usize {
    match found {
        Some(lexeme) => length_of(scene.text, lexeme),
        None => 0,
    }
}
