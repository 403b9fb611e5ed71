// What an answer of `dsr` means, in words.
ghost use Rattle.std.specs.Prelude.{◌≡◌};
ghost use Rattle.dsr_meaning.specs.Typed.{IsTyped};

use crate::chains::chain_told;
use crate::images::{image_told, push_members};
use crate::limits::{IMAGE_LIMIT, too_long};
use crate::outcomes::outcome_told;
use crate::plans::refusal_told;
use crate::reading::{Meaning, SpecRead, push_diagnosis, read_spec};
use crate::refusals::{certificate_refused, edit_refused, report_refused};
use crate::reports::report_told;
use dsr_ir::NoMemory;
use dsr_script::{Status, Verdict};
use dsr_store::{Shelf, ShelfFault};
use dsr_wording::{Text, text_of};
use std::alloc::Global;

// What an answer means, as far as a specification tells it.
#[derive(Clone, Copy)]
enum About {
    /// What is wrong with its text.
    Text,
    /// What is wrong with an image.
    Image,
    /// What stands in the way of a plan.
    Plan,
    /// By which rules a chain goes.
    Chain,
    /// Which records are members of what is saved, and aren't of an image, or the other way round.
    Saved,
}

// A word of a command, by its place.
fn word(words: &[String], place: usize) -> &str {
    match words.get(place) {
        Some(word) => word.as_str(),
        None => "",
    }
}

// Keeps that memory ran out, where that is why a file wasn't read.
fn keep_fault(text: &mut Text, fault: ShelfFault) {
    match fault {
        ShelfFault::Failed => {}
        ShelfFault::NoMemory => text.cut(),
    }
}

// Appends what is wrong with an image.
fn push_image<F: Shelf>(text: &mut Text, shelf: &mut F, meaning: &Meaning, name: &str)
    requires { IsTyped meaning.now.spec }
    ensures held { F.held shelf.new ≡ F.held shelf.old }
{
    match shelf.load(text.allocator(), name, IMAGE_LIMIT) {
        Ok(bytes) => image_told(text, meaning, name, &bytes),
        Err(fault) => keep_fault(text, fault),
    }
}

// Appends how the members of what is saved differ from those of an image.
fn push_other<F: Shelf>(
    text: &mut Text,
    shelf: &mut F,
    meaning: &Meaning,
    before: &[u8],
    saved: &str,
)
    requires { IsTyped meaning.now.spec }
    ensures held { F.held shelf.new ≡ F.held shelf.old }
{
    match shelf.load(text.allocator(), saved, IMAGE_LIMIT) {
        Ok(after) => push_members(text, meaning, before, &after),
        Err(fault) => keep_fault(text, fault),
    }
}

// The same, of an image that is read first.
fn push_saved<F: Shelf>(text: &mut Text, shelf: &mut F, meaning: &Meaning, words: &[String])
    requires { IsTyped meaning.now.spec }
    ensures held { F.held shelf.new ≡ F.held shelf.old }
{
    match shelf.load(text.allocator(), word(words, 2), IMAGE_LIMIT) {
        Ok(before) => push_other(text, shelf, meaning, &before, word(words, 3)),
        Err(fault) => keep_fault(text, fault),
    }
}

// Appends what stands in the way of a plan.
fn push_plan(text: &mut Text, meaning: &Meaning, name: &str, out: &str)
    requires { IsTyped meaning.now.spec }
{
    text.push(name);
    text.push(": ");
    refusal_told(text, meaning, out);
}

// Appends what an answer means by a specification that means something.
fn push_about<F: Shelf>(
    text: &mut Text,
    shelf: &mut F,
    meaning: &Meaning,
    words: &[String],
    about: About,
    out: &str,
)
    requires { IsTyped meaning.now.spec }
    ensures held { F.held shelf.new ≡ F.held shelf.old }
{
    match about {
        About::Text => {}
        About::Image => push_image(text, shelf, meaning, word(words, 2)),
        About::Plan => push_plan(text, meaning, word(words, 1), out),
        About::Chain => chain_told(text, meaning, word(words, 3), out),
        About::Saved => push_saved(text, shelf, meaning, words),
    }
}

// Appends what an answer means by a specification, which is read first.
fn push_by_spec<F: Shelf>(text: &mut Text, shelf: &mut F, words: &[String], about: About, out: &str)
    ensures held { F.held shelf.new ≡ F.held shelf.old }
{
    let read = read_spec(text.allocator(), shelf, word(words, 1));
    match &read {
        SpecRead::Means(meaning) => push_about(text, shelf, meaning, words, about, out),
        SpecRead::Refused(source, diagnosis) => {
            if matches!(about, About::Text) {
                push_diagnosis(text, word(words, 1), source, diagnosis);
            }
        }
        SpecRead::TooLong | SpecRead::Missed => {}
        SpecRead::NoMemory => text.cut(),
    }
}

// Appends what a repair did, and which records are members or no longer are.
fn push_repaired<F: Shelf>(text: &mut Text, shelf: &mut F, words: &[String], out: &str)
    ensures held { F.held shelf.new ≡ F.held shelf.old }
{
    report_told(text, out);
    if !text.is_empty() && word(words, 2) != word(words, 3) {
        push_by_spec(text, shelf, words, About::Saved, out);
    }
}

const USAGE: &str = "\
error: the words ask for nothing: no file has an empty name or one that begins with -, what is saved \
has another name than the specification, and N is a number up to 65535\n";

// Appends what the answer of a command means that did what it was asked for.
fn push_done<F: Shelf>(text: &mut Text, shelf: &mut F, words: &[String], out: &str)
    ensures held { F.held shelf.new ≡ F.held shelf.old }
{
    match word(words, 0) {
        "repair" => push_repaired(text, shelf, words, out),
        "why" => push_by_spec(text, shelf, words, About::Chain, out),
        command => outcome_told(text, command, word(words, 4), out),
    }
}

// Appends what a command's own verdict means.
fn push_said<F: Shelf>(
    text: &mut Text,
    shelf: &mut F,
    words: &[String],
    verdict: Verdict,
    out: &str,
)
    ensures held { F.held shelf.new ≡ F.held shelf.old }
{
    match verdict {
        Verdict::SpecRefused => push_by_spec(text, shelf, words, About::Text, out),
        Verdict::Inconsistent => push_by_spec(text, shelf, words, About::Image, out),
        Verdict::LayoutRefused => push_by_spec(text, shelf, words, About::Image, out),
        Verdict::PlanRefused => push_by_spec(text, shelf, words, About::Plan, out),
        Verdict::CertRefused => certificate_refused(text, word(words, 2), out),
        Verdict::ReportRefused => report_refused(text, word(words, 3), out),
        Verdict::Usage => text.push(USAGE),
        Verdict::Ok => push_done(text, shelf, words, out),
        Verdict::SupplyEmpty => report_told(text, out),
        Verdict::EditRefused => edit_refused(text, word(words, 3), out),
    }
}

// Appends what an answer means.
fn push_explained<F: Shelf>(
    text: &mut Text,
    shelf: &mut F,
    words: &[String],
    status: &Status,
    out: &[u8],
)
    ensures held { F.held shelf.new ≡ F.held shelf.old }
{
    match status {
        Status::Said(verdict) => push_said(text, shelf, words, *verdict, text_of(out)),
        Status::TooLong => text.push(too_long(out)),
        _ => {}
    }
}

/// What an answer means; nothing where it says so itself, or where only the system can tell why a
/// file failed.
pub fn explained<F: Shelf>(
    alloc: Global,
    shelf: &mut F,
    words: &[String],
    status: &Status,
    out: &[u8],
) -> Result<String, NoMemory>
    ensures held { F.held shelf.new ≡ F.held shelf.old }
{
    let mut text = Text::new(alloc);
    push_explained(&mut text, shelf, words, status, out);
    text.whole()
}
