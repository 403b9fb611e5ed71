// Names of C as names of a specification.
use dsr_ir::NoMemory;
use dsr_lexer::front;
use dsr_tree::{Lexeme, Token};
use dsr_wording::Text;
use std::alloc::Global;

// The most letters that are kept of a name which can't stand as it is: with what is put before it and
// the longest ending it has the 32 bytes that a name may have.
const MOST: usize = 23;

// How many of its first letters a longer name keeps, and how many of its last ones: names of one
// program often begin alike.
const KEPT: usize = 11;

// Whether a text that begins with its version has one name behind it. `Head` is the structure of
// byte 0.
fn is_free_name_last(lexemes: &[Lexeme]) -> bool {
    match lexemes {
        [_version, _number, last] => match &last.token {
            Token::Name(name) => name.bytes() != b"Head".as_slice(),
            _ => false,
        },
        _ => false,
    }
}

// Whether a name with an ending is one name, and no keyword of version 2.
fn is_free_name(alloc: Global, name: &str, ending: &str) -> Result<bool, NoMemory> {
    let mut text = Text::new(alloc);
    text.push("version 2 ");
    text.push(name);
    text.push(ending);
    let versioned = text.whole()?;
    let front = front(alloc, versioned.as_bytes())?;
    Ok(front.fault.is_none() && is_free_name_last(&front.lexemes))
}

// Appends a letter, or `_` in place of one that can't stand in a name.
fn push_plain(text: &mut Text, letter: char) {
    let is_plain = letter.is_ascii_alphanumeric() || letter == '_';
    text.push_letter(if is_plain { letter } else { '_' });
}

// Appends the letters of a name, or its first and its last ones where it is too long.
fn push_shortened(text: &mut Text, name: &str) {
    let count = name.chars().count();
    for (place, letter) in name.chars().enumerate() {
        if count <= MOST || place < KEPT || place >= count.saturating_sub(KEPT) {
            push_plain(text, letter);
        } else if place == KEPT {
            text.push("_");
        }
    }
}

// Appends a name that can't stand as it is.
fn push_changed(text: &mut Text, name: &str, ending: &str) {
    text.push("c_");
    push_shortened(text, name);
    text.push(ending);
}

/// Appends a name of C with an ending, as it can stand in a specification: keywords, long names and
/// names that begin with another sign than a letter are changed.
pub fn push_name(text: &mut Text, name: &str, ending: &str) {
    match is_free_name(text.allocator(), name, ending) {
        Ok(true) => {
            text.push(name);
            text.push(ending);
        }
        Ok(false) => push_changed(text, name, ending),
        Err(_) => text.cut(),
    }
}

/// Appends a template with names made of one name of C: each pair of braces stands for the name with
/// the ending that is in them.
pub fn push_names(text: &mut Text, template: &str, name: &str) {
    for part in template.split('{') {
        match part.split_once('}') {
            Some((ending, behind)) => {
                push_name(text, name, ending);
                text.push(behind);
            }
            None => text.push(part),
        }
    }
}
