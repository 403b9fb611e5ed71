//! Reads runs of the program from the standard input, does each over files in memory, and prints
//! how it ended.
//!
//! A line `=== NAME WORD WORD ..` begins a run with these words. Below it may stand, in this order:
//! - `--- CALL PUT`: which call of the shelf and which put fail, counted from 1; 0 for none. A
//!   third number is how many bytes a failed save leaves, 0 where it isn't told;
//! - `<<< WORD WORD ..`: these words run first, over a shelf that never fails, and the run begins
//!   with what they left;
//! - `*** FIRST LAST`: a run of each of these numbers, with the number in place of each `#`;
//! - its files: a line `+++ NAME` begins one, which is the text up to the next such line, without
//!   the line feed before that line. Words behind its name go on with it: `HEX` appends these
//!   bytes, `HEX*COUNT` so often, `HEX*COUNT+HEX` with so much added to them each time, as to a
//!   number whose least byte is the first; `trial:NUMBER` appends the image of that trial; `<COUNT`
//!   cuts off what is behind so many bytes.
//!
//! Of each run is printed `=== NAME STATUS`, what it put, `--- load NAME` or `--- save NAME` for
//! the call that failed, and `+++ NAME HEX` for each file that it saved, or `+++ NAME = OTHER` for
//! one of more than 4,096 bytes which are those that the file OTHER had before.
#![tactic(auto)]

mod failing;
mod files;
mod pieces;
mod repeating;

use dsr_cli::run;
use dsr_ir::NoMemory;
use dsr_script::Status;
use dsr_store::{Held, MemorySink, Missed, TornShelf};
use dsr_test_text::Lines;
use failing::{Failing, add_missed, failing_of};
use files::add_saved;
use repeating::{add_runs, begun};
use std::alloc::{AllocError, Global};
use std::{io, str};

// The words behind the name.
fn words_of(alloc: Global, heading: &str) -> Result<Vec<String>, AllocError> {
    let mut words = Vec::new(alloc);
    for word in heading.split(' ').skip(1) {
        words.push(word.to_string(alloc)?)?;
    }
    Ok(words)
}

// How a run ended.
#[derive(Drop)]
struct Ended {
    status: Status,
    text: Vec<u8>,
    missed: Option<Missed>,
    files: Vec<Held>,
}

// The files of a run, of which a call fails.
fn shelf_of(alloc: Global, files: Vec<Held>, failing: Failing) -> Result<TornShelf, AllocError> {
    Ok(TornShelf {
        files,
        fail: vec![in alloc; failing.call]?,
        cut: failing.cut,
        calls: 0,
        last: None,
    })
}

// What is put by a run, of which a put fails.
fn sink_of(alloc: Global, failing: Failing) -> Result<MemorySink, AllocError> {
    Ok(MemorySink {
        bytes: Vec::new(alloc),
        fail: vec![in alloc; failing.put]?,
        calls: 0,
    })
}

fn end_of(
    alloc: Global,
    words: &Vec<String>,
    files: Vec<Held>,
    failing: Failing,
) -> Result<Ended, AllocError> {
    let mut shelf = shelf_of(alloc, files, failing)?;
    let mut out = sink_of(alloc, failing)?;
    let status = run(alloc, words, &mut shelf, &mut out);
    Ok(Ended {
        status,
        text: out.bytes,
        missed: shelf.last,
        files: shelf.files,
    })
}

// The run of these words over the files that are given.
fn run_given(alloc: Global, heading: &str, given: &str) -> Result<Ended, NoMemory> {
    let words = words_of(alloc, heading)?;
    let files = begun(alloc, given)?;
    Ok(end_of(alloc, &words, files, failing_of(given))?)
}

fn add_ended(lines: &mut Lines, alloc: Global, ended: &Ended, before: &[Held]) {
    lines.part(" ", u64::from(ended.status.number()));
    lines.word("\n");
    lines.word(str::from_utf8(&ended.text).unwrap_or("no text\n"));
    add_missed(lines, &ended.missed);
    add_saved(lines, alloc, before, &ended.files);
}

fn add_run(lines: &mut Lines, alloc: Global, given: &str) {
    let (heading, files) = given.split_once('\n').unwrap_or((given, ""));
    lines.word("=== ");
    lines.word(heading.split(' ').next().unwrap_or(""));
    match (run_given(alloc, heading, files), begun(alloc, files)) {
        (Ok(ended), Ok(before)) => add_ended(lines, alloc, &ended, &before),
        _ => lines.word(" no memory\n"),
    }
}

fn main(rt: HostRuntime) -> anyhow::Result<()> {
    let alloc = rt.alloc();
    let input = io::read_to_string(alloc, rt.stdin())?;
    let mut lines = Lines::new(alloc);
    for given in input.split("=== ").skip(1) {
        add_runs(&mut lines, alloc, given);
    }
    rt.print(lines.whole()?)?;
    Ok(())
}
