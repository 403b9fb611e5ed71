// Runs that are made of one for each number, and what was run before one.
use crate::failing::number_of;
use crate::files::files_of;
use crate::{add_run, words_of};
use dsr_cli::run;
use dsr_ir::NoMemory;
use dsr_store::{Held, SureShelf, SureSink};
use dsr_test_text::Lines;
use itoa::Buffer;
use std::alloc::{AllocError, Global};

// A run with a number in place of each `#`.
fn numbered(alloc: Global, heading: &str, files: &str, number: u64) -> Result<String, AllocError> {
    let pattern = format!(in alloc; "{heading}\n{files}")?;
    pattern.replace(alloc, "#", Buffer::new().format(number))
}

/// Adds the run, or that of each number where a line says so.
pub fn add_runs(lines: &mut Lines, alloc: Global, given: &str) {
    let Some((heading, behind)) = given.split_once("\n*** ") else {
        add_run(lines, alloc, given);
        return;
    };
    let (numbers, files) = behind.split_once('\n').unwrap_or((behind, ""));
    let (first, last) = numbers.split_once(' ').unwrap_or((numbers, numbers));
    for number in number_of(first)..=number_of(last) {
        match numbered(alloc, heading, files, number) {
            Ok(given) => add_run(lines, alloc, &given),
            Err(_) => lines.word("no memory\n"),
        }
    }
}

// What these words leave of the files.
fn left_by(alloc: Global, words: &Vec<String>, files: Vec<Held>) -> Vec<Held> {
    let mut shelf = SureShelf { files, last: None };
    let mut out = SureSink {
        bytes: Vec::new(alloc),
    };
    run(alloc, words, &mut shelf, &mut out);
    shelf.files
}

/// The files that a run begins with: those given, or what other words left of them.
pub fn begun(alloc: Global, given: &str) -> Result<Vec<Held>, NoMemory> {
    let files = files_of(alloc, given)?;
    let heading = given.split("+++ ").next().unwrap_or("");
    let Some((_, behind)) = heading.split_once("<<<") else {
        return Ok(files);
    };
    let words = words_of(alloc, behind.split('\n').next().unwrap_or(""))?;
    Ok(left_by(alloc, &words, files))
}
