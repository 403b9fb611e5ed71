// The commands that read a specification.
ghost use Rattle.std.specs.Prelude.{◌≡◌};
ghost use Rattle.dsr_meaning.specs.Typed.{IsTyped};

use crate::answers::{Answer, Shown};
use crate::limits::LONG_SPEC;
use crate::reading::{Meaning, SpecRead, push_diagnosis, read_spec};
use crate::showing::{View, show_file};
use crate::telling::{Telling, push_telling};
use dsr_ir::NoMemory;
use dsr_script::{Status, Verdict};
use dsr_store::Shelf;
use std::alloc::Global;

// What is asked of a specification.
#[derive(Clone, Copy)]
enum Asked<'a> {
    /// What it says of an image.
    Image(&'a str, View<'a>),
    /// What it says itself.
    Telling(Telling),
}

// Answers what is asked of a specification that means something.
fn answer_by<F: Shelf>(answer: &mut Answer, shelf: &mut F, meaning: &Meaning, asked: Asked<'_>)
    requires { IsTyped meaning.now.spec }
    ensures held { F.held shelf.new ≡ F.held shelf.old }
{
    match asked {
        Asked::Image(name, view) => show_file(answer, shelf, meaning, name, view),
        Asked::Telling(telling) => push_telling(&mut answer.text, meaning, telling),
    }
}

// Tells why a specification isn't read, or means nothing. Of a file that can't be read the system
// tells why.
fn refuse_unread(answer: &mut Answer, name: &str, read: &SpecRead) {
    match read {
        SpecRead::Means(_) => {}
        SpecRead::Refused(text, diagnosis) => {
            answer.status = Status::Said(Verdict::SpecRefused);
            push_diagnosis(&mut answer.told, name, text, diagnosis);
        }
        SpecRead::TooLong => answer.refuse(Status::TooLong, LONG_SPEC),
        SpecRead::Missed => answer.refuse(Status::StoreFailed, ""),
        SpecRead::NoMemory => answer.cut(),
    }
}

// Reads a specification, and answers what is asked of it.
fn answer_asked<F: Shelf>(answer: &mut Answer, shelf: &mut F, spec: &str, asked: Asked<'_>)
    ensures held { F.held shelf.new ≡ F.held shelf.old }
{
    let read = read_spec(answer.allocator(), shelf, spec);
    match &read {
        SpecRead::Means(meaning) => answer_by(answer, shelf, meaning, asked),
        unread => refuse_unread(answer, spec, unread),
    }
}

// The answer to what is asked of a specification.
fn answered<F: Shelf>(
    alloc: Global,
    shelf: &mut F,
    spec: &str,
    asked: Asked<'_>,
) -> Result<Shown, NoMemory>
    ensures held { F.held shelf.new ≡ F.held shelf.old }
{
    let mut answer = Answer::new(alloc);
    answer_asked(&mut answer, shelf, spec, asked);
    answer.whole()
}

/// Shows what a specification says of an image: what a word names, or all sets where it is empty.
pub fn show<F: Shelf>(
    alloc: Global,
    shelf: &mut F,
    spec: &str,
    image: &str,
    what: &str,
) -> Result<Shown, NoMemory>
    ensures held { F.held shelf.new ≡ F.held shelf.old }
{
    answered(alloc, shelf, spec, Asked::Image(image, View::What(what)))
}

/// Draws what a specification says of an image, for Graphviz.
pub fn draw<F: Shelf>(
    alloc: Global,
    shelf: &mut F,
    spec: &str,
    image: &str,
) -> Result<Shown, NoMemory>
    ensures held { F.held shelf.new ≡ F.held shelf.old }
{
    answered(alloc, shelf, spec, Asked::Image(image, View::Picture))
}

/// Tells something of a specification.
pub fn tell<F: Shelf>(
    alloc: Global,
    shelf: &mut F,
    name: &str,
    telling: Telling,
) -> Result<Shown, NoMemory>
    ensures held { F.held shelf.new ≡ F.held shelf.old }
{
    answered(alloc, shelf, name, Asked::Telling(telling))
}
