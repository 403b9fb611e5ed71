// From the words to the answer.
use crate::asking::{asked_of, file_of, value_of, words_of};
use crate::commands::command_line;
use crate::completions::completions_of;
use crate::putting::{DONE, Manner, put, tell};
use crate::reasons::is_same_file;
use crate::running::{check_all, run_asked, run_dsr};
use crate::table::saved_by;
use clap::error::ErrorKind;
use clap::{ArgMatches, Error};
use dsr_ir::NoMemory;
use dsr_script::{Status, Verdict};
use std::alloc::Global;
use std::rt::Files;

// Whether a file that is to be saved is the specification under another name.
fn overwrites<R: Files>(rt: &R, command: &str, given: &ArgMatches<'_>) -> bool {
    match saved_by(command) {
        Some(id) => is_same_file(rt, file_of(given, "SPEC"), value_of(given, id)),
        None => false,
    }
}

// Answers that the words ask for nothing.
fn put_usage<R: Print + Eprint>(rt: &R, alloc: Global) -> Status {
    put(rt, alloc, b"usage\n", Status::Said(Verdict::Usage))
}

// Prints what a shell is to read.
fn complete<R: Print + Eprint>(
    rt: &R,
    alloc: Global,
    shell: &str,
    colours: bool,
) -> Result<Status, NoMemory> {
    let text = completions_of(alloc, shell)?;
    if text.is_empty() {
        tell(rt, alloc, NO_SHELL, colours);
        return Ok(put_usage(rt, alloc));
    }
    Ok(put(rt, alloc, text.as_bytes(), DONE))
}

const NO_SHELL: &str = "error: the shells are bash, zsh and fish\n";

const SAME_FILE: &str =
    "error: what is saved would replace the specification: both names are those of one file\n";

// Runs a command with what stands behind it.
fn run_words<R: Files + Print + Eprint>(
    rt: &R,
    alloc: Global,
    words: &Vec<String>,
    command: &str,
    given: &ArgMatches<'_>,
    manner: Manner,
) -> Result<Status, NoMemory> {
    if command == "check" {
        let images = given.get_strs("IMAGE").unwrap_or(&[]);
        return check_all(rt, alloc, words, images, manner);
    }
    match asked_of(command, given) {
        Some(asked) => run_asked(rt, alloc, words, asked, manner),
        None => run_dsr(rt, alloc, words, manner),
    }
}

// Runs a command on its files.
fn run_command<R: Files + Print + Eprint>(
    rt: &R,
    alloc: Global,
    command: &str,
    given: &ArgMatches<'_>,
    manner: Manner,
) -> Result<Status, NoMemory> {
    let words = words_of(alloc, command, given)?;
    run_words(rt, alloc, &words, command, given, manner)
}

// Does what a command asks for.
fn obey<R: Files + Print + Eprint>(
    rt: &R,
    alloc: Global,
    command: &str,
    given: &ArgMatches<'_>,
    colours: bool,
) -> Result<Status, NoMemory> {
    if command == "completions" {
        return complete(rt, alloc, value_of(given, "SHELL"), colours);
    }
    if overwrites(rt, command, given) {
        tell(rt, alloc, SAME_FILE, colours);
        return Ok(put_usage(rt, alloc));
    }
    let json = given.get_flag("json");
    run_command(rt, alloc, command, given, Manner { colours, json })
}

// What is told of words that the program doesn't take, or of help that is asked for.
fn refuse<R: Print + Eprint>(rt: &R, alloc: Global, error: &Error) -> Result<Status, NoMemory> {
    match error.kind() {
        ErrorKind::OutOfMemory => return Err(NoMemory),
        ErrorKind::DisplayHelp | ErrorKind::DisplayVersion => {
            return Ok(match rt.print(error) {
                Ok(()) => DONE,
                Err(_) => Status::OutputFailed,
            });
        }
        _ => {}
    }
    let _told = rt.eprint(error);
    Ok(put_usage(rt, alloc))
}

// Does what words ask for that the program takes.
fn obey_matches<R: Files + Print + Eprint>(
    rt: &R,
    alloc: Global,
    matches: &ArgMatches<'_>,
    colours: bool,
) -> Result<Status, NoMemory> {
    match matches.subcommand() {
        Some((command, given)) => obey(rt, alloc, command, given, colours),
        None => Ok(put_usage(rt, alloc)),
    }
}

// What the words give to each argument.
fn matches_of<'a>(alloc: Global, words: &'a [String]) -> Result<ArgMatches<'a>, Error> {
    command_line(alloc)?.try_get_matches_from(words)
}

/// Does what the words ask for, and gives the status.
pub fn answer<R: Files + Print + Eprint>(
    rt: &R,
    alloc: Global,
    words: &[String],
    colours: bool,
) -> Result<Status, NoMemory> {
    match matches_of(alloc, words) {
        Ok(matches) => obey_matches(rt, alloc, &matches, colours),
        Err(error) => refuse(rt, alloc, &error),
    }
}
