// What is told of texts.
use crate::faults::add_syntax_fault;
use dsr_ir::NoMemory;
use dsr_parse::{SyntaxFault, parse, print};
use dsr_test_text::Lines;
use std::alloc::Global;
use std::str;

fn printed(alloc: Global, text: &[u8]) -> Result<Result<Vec<u8>, NoMemory>, SyntaxFault> {
    let tree = parse(alloc, text)?;
    Ok(print(alloc, &tree))
}

fn add_bytes(lines: &mut Lines, bytes: &[u8]) {
    match str::from_utf8(bytes) {
        Ok(text) => lines.word(text),
        Err(_) => lines.word("no text\n"),
    }
}

fn is_same(found: &Result<Vec<u8>, NoMemory>, wanted: &[u8]) -> bool {
    match found {
        Ok(bytes) => bytes.as_slice() == wanted,
        Err(_) => false,
    }
}

// Whether the canonical text, when it is read again, is printed as it is.
fn is_printed_again(alloc: Global, text: &[u8]) -> bool {
    match printed(alloc, text) {
        Ok(again) => is_same(&again, text),
        Err(_) => false,
    }
}

// A canonical text, and whether it is printed again as it is.
fn add_printed(lines: &mut Lines, alloc: Global, printed: &Result<Vec<u8>, NoMemory>) {
    let Ok(text) = printed else {
        lines.word(" no memory\n");
        return;
    };
    lines.word(" text\n");
    add_bytes(lines, text);
    lines.word("  read again: ");
    lines.word(if is_printed_again(alloc, text) {
        "the same\n"
    } else {
        "another text\n"
    });
}

/// What is told of a text: its canonical text, or the fault.
pub fn add_text(lines: &mut Lines, alloc: Global, text: &[u8]) {
    match printed(alloc, text) {
        Ok(printed) => add_printed(lines, alloc, &printed),
        Err(fault) => add_syntax_fault(lines, fault),
    }
}

/// The fault of a text, where it has one.
pub fn add_fault_of(lines: &mut Lines, alloc: Global, text: &[u8]) {
    match printed(alloc, text) {
        Ok(_) => lines.word(" no fault\n"),
        Err(fault) => add_syntax_fault(lines, fault),
    }
}
