// The files of a run.
use crate::pieces::add_piece;
use dsr_ir::NoMemory;
use dsr_store::{Content, Held, Label};
use dsr_test_text::Lines;
use std::alloc::Global;
use std::str;

// A text, and what the words behind the file's name make of it.
fn content_of(alloc: Global, text: &str, pieces: &str) -> Result<Vec<u8>, NoMemory> {
    let mut bytes = Vec::from_slice(alloc, text.as_bytes())?;
    for word in pieces.split(' ') {
        add_piece(alloc, &mut bytes, word)?;
    }
    Ok(bytes)
}

fn file_of(alloc: Global, given: &str) -> Result<Held, NoMemory> {
    let (heading, text) = given.split_once('\n').unwrap_or((given, ""));
    let text = text.strip_suffix('\n').unwrap_or(text);
    let (name, pieces) = heading.split_once(' ').unwrap_or((heading, ""));
    let bytes = content_of(alloc, text, pieces)?;
    let name = Vec::from_slice(alloc, name.as_bytes())?;
    Ok(Held {
        name: Label::new(name),
        bytes: Content::new(bytes),
    })
}

/// The files that are given.
pub fn files_of(alloc: Global, given: &str) -> Result<Vec<Held>, NoMemory> {
    let mut files = Vec::new(alloc);
    for file in given.split("+++ ").skip(1) {
        files.push(file_of(alloc, file)?)?;
    }
    Ok(files)
}

// Whether some file has this name and these bytes.
fn is_among(files: &[Held], file: &Held) -> bool {
    for other in files {
        if other.name.bytes() == file.name.bytes() && other.bytes.bytes() == file.bytes.bytes() {
            return true;
        }
    }
    false
}

// Files of more bytes are told by the name of one that has the same, where there is one.
const LONG: usize = 4096;

// The name of a file with these bytes.
fn name_of<'a>(files: &'a [Held], bytes: &[u8]) -> Option<&'a [u8]> {
    for file in files {
        if file.bytes.bytes() == bytes {
            return Some(file.name.bytes());
        }
    }
    None
}

// Adds these bytes, or the name of a file that had them before.
fn add_bytes(lines: &mut Lines, alloc: Global, before: &[Held], bytes: &[u8]) {
    match name_of(before, bytes) {
        Some(name) if bytes.len() > LONG => {
            lines.word("= ");
            lines.word(str::from_utf8(name).unwrap_or("?"));
        }
        _ => match hex::encode(alloc, bytes) {
            Ok(digits) => lines.word(digits.as_str()),
            Err(_) => lines.word("no memory"),
        },
    }
}

/// Adds the files that weren't so before.
pub fn add_saved(lines: &mut Lines, alloc: Global, before: &[Held], after: &[Held]) {
    for file in after {
        if !is_among(before, file) {
            lines.word("+++ ");
            lines.word(str::from_utf8(file.name.bytes()).unwrap_or("?"));
            lines.word(" ");
            add_bytes(lines, alloc, before, file.bytes.bytes());
            lines.word("\n");
        }
    }
}
