//! Reads specifications, with images or alone, from the standard input, and prints what is told of
//! each.
//!
//! A line `=== NAME COMMAND STATUS WHAT ..` begins a case: the command, with the fourth of its words
//! behind a `/` where it isn't the file `x`, the status that `dsr` gives, and what is shown, if
//! anything, or `%ways`, `%lint`, `%graph`, `%picture`, `%from-c`. Below it stands the specification,
//! up to a line `+++ HEX` with the bytes of the image, or `+++ HEX HEX` with those of what was saved,
//! too, and below that what `dsr` answers. Of each is printed the first line, what the answer means,
//! and what is shown. Of `%from-c` structures of C stand in the place of the specification.
//!
//! Below a line `=== NAME` alone stands the text of a specification, which ends before the line feed
//! that stands before the next such line. Printed is what is wrong with it, or `means a
//! specification`.
#![tactic(auto)]

use anyhow::bail;
use dsr_diagnosis::{Diagnosis, diagnose, shown as diagnosis_shown};
use dsr_explain::{Shown, Telling, draw, explained, from_c, show, tell};
use dsr_ir::NoMemory;
use dsr_script::{Status, Verdict};
use dsr_store::{Content, Held, Label, SureShelf};
use dsr_wording::Text;
use std::alloc::Global;
use std::io;

fn held(alloc: Global, name: &str, bytes: &[u8]) -> Result<Held, NoMemory> {
    let name = Vec::from_slice(alloc, name.as_bytes())?;
    let bytes = Vec::from_slice(alloc, bytes)?;
    Ok(Held {
        name: Label::new(name),
        bytes: Content::new(bytes),
    })
}

fn add_file(text: &mut Text, files: &mut Vec<Held>, name: &str, bytes: &[u8]) {
    match held(text.allocator(), name, bytes) {
        Ok(held) => {
            if files.push(held).is_err() {
                text.cut();
            }
        }
        Err(_) => text.cut(),
    }
}

fn add_image(text: &mut Text, files: &mut Vec<Held>, name: &str, digits: &str) {
    match hex::decode(text.allocator(), digits) {
        Ok(bytes) => add_file(text, files, name, &bytes),
        Err(_) => text.push("no bytes in hexadecimal digits\n"),
    }
}

// The specification `s`, the image `i`, and what was saved as `x`, if anything.
fn shelf_of(text: &mut Text, spec: &str, images: &str) -> SureShelf {
    let mut files = Vec::new(text.allocator());
    add_file(text, &mut files, "s", spec.as_bytes());
    for (place, digits) in images.trim().split(' ').enumerate() {
        let name = if place == 0 { "i" } else { "x" };
        add_image(text, &mut files, name, digits);
    }
    SureShelf { files, last: None }
}

fn status_of(word: &str) -> Option<Status> {
    Some(match word {
        "inconsistent" => Status::Said(Verdict::Inconsistent),
        "layout" => Status::Said(Verdict::LayoutRefused),
        "spec" => Status::Said(Verdict::SpecRefused),
        "plan" => Status::Said(Verdict::PlanRefused),
        "supply" => Status::Said(Verdict::SupplyEmpty),
        "certificate" => Status::Said(Verdict::CertRefused),
        "report" => Status::Said(Verdict::ReportRefused),
        "edit" => Status::Said(Verdict::EditRefused),
        "usage" => Status::Said(Verdict::Usage),
        "long" => Status::TooLong,
        "ok" => Status::Said(Verdict::Ok),
        _ => return None,
    })
}

// The words of a command. The fourth one stands behind it after a `/`, or else is the file `x`.
fn words_of(alloc: Global, command: &str) -> Result<Vec<String>, NoMemory> {
    let mut words = Vec::new(alloc);
    let (command, fourth) = command.split_once('/').unwrap_or((command, "x"));
    words.push(command.to_string(alloc)?)?;
    words.push("s".to_string(alloc)?)?;
    words.push("i".to_string(alloc)?)?;
    words.push(fourth.to_string(alloc)?)?;
    words.push("y".to_string(alloc)?)?;
    Ok(words)
}

fn push_told(
    text: &mut Text,
    shelf: &mut SureShelf,
    words: &[String],
    status: Status,
    answer: &str,
) {
    match explained(text.allocator(), shelf, words, &status, answer.as_bytes()) {
        Ok(told) => text.push(told.as_str()),
        Err(_) => text.cut(),
    }
}

fn push_meaning(
    text: &mut Text,
    shelf: &mut SureShelf,
    command: &str,
    status: Status,
    answer: &str,
) {
    match words_of(text.allocator(), command) {
        Ok(words) => push_told(text, shelf, &words, status, answer),
        Err(_) => text.cut(),
    }
}

// What is shown of the specification and the image.
fn shown_of(alloc: Global, shelf: &mut SureShelf, what: &str) -> Result<Shown, NoMemory> {
    match what {
        "%ways" => tell(alloc, shelf, "s", Telling::Ways),
        "%lint" => tell(alloc, shelf, "s", Telling::Lint),
        "%graph" => tell(alloc, shelf, "s", Telling::Graph),
        "%picture" => draw(alloc, shelf, "s", "i"),
        "%from-c" => from_c(alloc, shelf, "s"),
        _ => show(alloc, shelf, "s", "i", what),
    }
}

fn push_shown(text: &mut Text, shelf: &mut SureShelf, what: &str) {
    match shown_of(text.allocator(), shelf, what) {
        Ok(shown) => {
            text.push(shown.told.as_str());
            text.push(shown.text.as_str());
        }
        Err(_) => text.cut(),
    }
}

fn push_answers(text: &mut Text, shelf: &mut SureShelf, heading: &str, answer: &str) {
    let mut words = heading.split(' ').skip(1);
    let command = words.next().unwrap_or("");
    match status_of(words.next().unwrap_or("")) {
        Some(status) => push_meaning(text, shelf, command, status, answer),
        None => text.push("no such status\n"),
    }
    for what in words {
        push_shown(text, shelf, what);
    }
}

fn push_diagnosis(text: &mut Text, spec: &str, diagnosis: &Diagnosis) {
    match diagnosis_shown(text.allocator(), "s", spec.as_bytes(), diagnosis) {
        Ok(told) => text.push(told.as_str()),
        Err(_) => text.cut(),
    }
}

fn push_fault(text: &mut Text, spec: &str) {
    match diagnose(text.allocator(), spec.as_bytes()) {
        Ok(Some(diagnosis)) => push_diagnosis(text, spec, &diagnosis),
        Ok(None) => text.push("means a specification\n"),
        Err(_) => text.cut(),
    }
}

fn push_answer(text: &mut Text, heading: &str, rest: &str) {
    let (spec, rest) = rest.split_once("+++ ").unwrap_or((rest, ""));
    let (images, answer) = rest.split_once('\n').unwrap_or((rest, ""));
    let mut shelf = shelf_of(text, spec, images);
    push_answers(text, &mut shelf, heading, answer);
}

fn push_case(text: &mut Text, given: &str) {
    let (heading, rest) = given.split_once('\n').unwrap_or((given, ""));
    text.push("=== ");
    text.push(heading);
    text.push("\n");
    if heading.contains(' ') {
        push_answer(text, heading, rest);
    } else {
        push_fault(text, rest.strip_suffix("\n").unwrap_or(rest));
    }
}

fn all_told(alloc: Global, input: &str) -> Result<String, NoMemory> {
    let mut text = Text::new(alloc);
    for given in input.split("=== ").skip(1) {
        push_case(&mut text, given);
    }
    text.whole()
}

fn main(rt: HostRuntime) -> anyhow::Result<()> {
    let alloc = rt.alloc();
    let input = io::read_to_string(alloc, rt.stdin())?;
    match all_told(alloc, input.as_str()) {
        Ok(text) => rt.print(text)?,
        Err(_) => bail!("out of memory"),
    }
    Ok(())
}
