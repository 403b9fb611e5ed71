// Commands that are run, each to its status.
ghost use Rattle.std.specs.Prelude.{◌≡◌, ◌≤◌, ◌⊎◌};
ghost use Rattle.dsr_script.specs.Statuses.{status_number};

use crate::asking::{Asked, with_file};
use crate::putting::{DONE, Manner, missed_told, put, tell};
use dsr_cli::run;
use dsr_explain::{Shown, draw, explained, from_c, show, tell as tell_spec};
use dsr_input::InputShelf;
use dsr_ir::NoMemory;
use dsr_json::document;
use dsr_script::Status;
use dsr_store::{Shelf, SureSink};
use std::alloc::Global;
use std::rt::Files;

// How a command of `dsr` ended, with its answer.
#[derive(Drop)]
struct Outcome {
    status: Status,
    answer: Vec<u8>,
}

// Runs a command of `dsr`.
fn outcome_of<R: Files>(
    alloc: Global,
    words: &Vec<String>,
    shelf: &mut InputShelf<'_, R>,
) -> Result<Outcome, NoMemory> {
    let mut out = SureSink {
        bytes: Vec::new(alloc),
    };
    let status = run(alloc, words, shelf, &mut out);
    if matches!(status, Status::NoMemory) {
        return Err(NoMemory);
    }
    Ok(Outcome {
        status,
        answer: out.bytes,
    })
}

// What an answer of `dsr` means.
fn meaning_of<R: Files>(
    rt: &R,
    alloc: Global,
    shelf: &mut InputShelf<'_, R>,
    words: &[String],
    outcome: &Outcome,
) -> Result<String, NoMemory> {
    if matches!(outcome.status, Status::StoreFailed) {
        return missed_told(rt, alloc, shelf);
    }
    explained(alloc, shelf, words, &outcome.status, &outcome.answer)
}

const NO_MORE: &str = "error: there is not enough memory to tell more\n";

// Runs a command of `dsr`, puts its answer, and tells what that means.
fn run_plain<R: Files + Print + Eprint>(
    rt: &R,
    alloc: Global,
    words: &Vec<String>,
    colours: bool,
) -> Result<Status, NoMemory> {
    let mut shelf = InputShelf::new(rt, alloc);
    let outcome = outcome_of(alloc, words, &mut shelf)?;
    let status = put(rt, alloc, &outcome.answer, outcome.status);
    // The answer is put: what it means can't change the status.
    match meaning_of(rt, alloc, &mut shelf, words, &outcome) {
        Ok(told) => tell(rt, alloc, told.as_str(), colours),
        Err(_) => tell(rt, alloc, NO_MORE, colours),
    }
    Ok(status)
}

// Puts an answer as a document, in a line.
fn put_document<R: Print + Eprint>(
    rt: &R,
    alloc: Global,
    words: &[String],
    status: Status,
    answer: &[u8],
    told: &str,
) -> Result<Status, NoMemory> {
    let answer = String::from_utf8_lossy(alloc, answer)?;
    let mut text = document(alloc, words, &status, answer.as_str(), told)?;
    text.push('\n')?;
    Ok(put(rt, alloc, text.as_bytes(), status))
}

// Puts what a command of `dsr` answered as a document, with what that means.
fn put_outcome<R: Files + Print + Eprint>(
    rt: &R,
    alloc: Global,
    shelf: &mut InputShelf<'_, R>,
    words: &[String],
    outcome: &Outcome,
) -> Result<Status, NoMemory> {
    let told = meaning_of(rt, alloc, shelf, words, outcome)?;
    let (status, answer) = (outcome.status, outcome.answer.as_slice());
    put_document(rt, alloc, words, status, answer, told.as_str())
}

// Runs a command of `dsr`, and answers with a document.
fn run_json<R: Files + Print + Eprint>(
    rt: &R,
    alloc: Global,
    words: &Vec<String>,
) -> Result<Status, NoMemory> {
    let mut shelf = InputShelf::new(rt, alloc);
    let outcome = outcome_of(alloc, words, &mut shelf)?;
    put_outcome(rt, alloc, &mut shelf, words, &outcome)
}

/// Runs a command of `dsr`.
pub fn run_dsr<R: Files + Print + Eprint>(
    rt: &R,
    alloc: Global,
    words: &Vec<String>,
    manner: Manner,
) -> Result<Status, NoMemory> {
    if manner.json {
        run_json(rt, alloc, words)
    } else {
        run_plain(rt, alloc, words, manner.colours)
    }
}

// Puts which image an answer is of, and gives the status.
fn put_heading<R: Print + Eprint>(rt: &R, alloc: Global, image: &str) -> Status {
    for piece in ["image ", image, "\n"] {
        let status = put(rt, alloc, piece.as_bytes(), DONE);
        if status != DONE {
            return status;
        }
    }
    DONE
}

// The status with the greater number.
fn greater(one: Status, other: Status) -> Status
    ensures among { (result ≡ one) ⊎ (result ≡ other) }
    ensures first { status_number one ≤ status_number result }
    ensures second { status_number other ≤ status_number result }
{
    if one.number() < other.number() {
        other
    } else {
        one
    }
}

// Checks an image.
fn check<R: Files + Print + Eprint>(
    rt: &R,
    alloc: Global,
    words: &[String],
    image: &str,
    manner: Manner,
) -> Result<Status, NoMemory> {
    let words = with_file(alloc, words, image)?;
    run_dsr(rt, alloc, &words, manner)
}

/// Checks each image, and gives the status with the greatest number.
pub fn check_all<R: Files + Print + Eprint>(
    rt: &R,
    alloc: Global,
    words: &[String],
    images: &[&str],
    manner: Manner,
) -> Result<Status, NoMemory> {
    let has_headings = images.len() > 1 && !manner.json;
    let mut status = DONE;
    for image in images {
        if has_headings {
            status = greater(status, put_heading(rt, alloc, image));
        }
        status = greater(status, check(rt, alloc, words, image, manner)?);
    }
    Ok(status)
}

// Puts what a command of this program shows, and tells what is told of it.
fn put_shown<R: Print + Eprint>(
    rt: &R,
    alloc: Global,
    words: &[String],
    shown: &Shown,
    told: &str,
    manner: Manner,
) -> Result<Status, NoMemory> {
    let (status, text) = (shown.status, shown.text.as_bytes());
    if manner.json {
        return put_document(rt, alloc, words, status, text, told);
    }
    let status = put(rt, alloc, text, status);
    tell(rt, alloc, told, manner.colours);
    Ok(status)
}

// The same. Where a file couldn't be read the system tells why.
fn put_asked<R: Files + Print + Eprint>(
    rt: &R,
    alloc: Global,
    shelf: &InputShelf<'_, R>,
    words: &[String],
    shown: &Shown,
    manner: Manner,
) -> Result<Status, NoMemory> {
    if !matches!(shown.status, Status::StoreFailed) {
        return put_shown(rt, alloc, words, shown, shown.told.as_str(), manner);
    }
    let missed = missed_told(rt, alloc, shelf)?;
    put_shown(rt, alloc, words, shown, missed.as_str(), manner)
}

// What is shown where this is asked.
fn shown_of<F: Shelf>(alloc: Global, shelf: &mut F, asked: Asked<'_>) -> Result<Shown, NoMemory> {
    match asked {
        Asked::Show { spec, image, what } => show(alloc, shelf, spec, image, what),
        Asked::Draw { spec, image } => draw(alloc, shelf, spec, image),
        Asked::Tell { spec, telling } => tell_spec(alloc, shelf, spec, telling),
        Asked::Convert { structures } => from_c(alloc, shelf, structures),
    }
}

/// Runs a command of this program alone.
pub fn run_asked<R: Files + Print + Eprint>(
    rt: &R,
    alloc: Global,
    words: &[String],
    asked: Asked<'_>,
    manner: Manner,
) -> Result<Status, NoMemory> {
    let mut shelf = InputShelf::new(rt, alloc);
    let shown = shown_of(alloc, &mut shelf, asked)?;
    put_asked(rt, alloc, &shelf, words, &shown, manner)
}
