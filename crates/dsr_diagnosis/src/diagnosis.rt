// What is wrong with a text, and how it is shown.
use crate::tokens::{no_token, over_limit};
use crate::unexpected::unexpected;
use dsr_ir::NoMemory;
use dsr_lexer::front;
use dsr_meaning_diagnosis::refused;
use dsr_names::SpecFault;
use dsr_parse::{SyntaxFault, parse};
use dsr_passages::{Diagnosis, Scene, Spot, count_before, push_before, push_behind, spot_of};
use dsr_spec::spec;
use dsr_tree::{Lexeme, Tree};
use dsr_wording::Text;
use std::alloc::Global;

fn scene_at<'a>(text: &'a [u8], lexemes: &'a [Lexeme], place: u64) -> Scene<'a> {
    Scene {
        text,
        lexemes,
        at: count_before(lexemes, place),
    }
}

// What is told of a text with a tree.
fn of_tree(
    alloc: Global,
    text: &[u8],
    lexemes: &[Lexeme],
    tree: &Tree,
) -> Result<Option<Diagnosis>, NoMemory> {
    match spec(alloc, tree) {
        Ok(_) => Ok(None),
        Err(SpecFault::NoMemory) => Err(NoMemory),
        Err(SpecFault::At { kind, place }) => {
            let scene = scene_at(text, lexemes, place);
            Ok(Some(refused(alloc, &scene, tree, kind)?))
        }
    }
}

// What is told of a text without one.
fn of_fault(
    alloc: Global,
    text: &[u8],
    lexemes: &[Lexeme],
    fault: SyntaxFault,
) -> Result<Option<Diagnosis>, NoMemory> {
    let diagnosis = match fault {
        SyntaxFault::NoMemory => return Err(NoMemory),
        SyntaxFault::Token(place) => no_token(alloc, text, place as usize)?,
        SyntaxFault::Limit(place) => over_limit(alloc, &scene_at(text, lexemes, place))?,
        SyntaxFault::Expected(place) => unexpected(alloc, &scene_at(text, lexemes, place))?,
    };
    Ok(Some(diagnosis))
}

/// What is wrong with a text; nothing where it means a specification.
pub fn diagnose(alloc: Global, text: &[u8]) -> Result<Option<Diagnosis>, NoMemory> {
    let front = front(alloc, text)?;
    match parse(alloc, text) {
        Ok(tree) => of_tree(alloc, text, &front.lexemes, &tree),
        Err(fault) => of_fault(alloc, text, &front.lexemes, fault),
    }
}

// As many of a letter.
fn push_many(text: &mut Text, letter: char, count: usize) {
    for _one in 0..count {
        text.push_letter(letter);
    }
}

// The number of a line, in five columns where it has no more digits.
fn push_number(text: &mut Text, line: usize) {
    for least in [10, 100, 1000, 10000] {
        if line < least {
            text.push(" ");
        }
    }
    text.number(line as u64);
}

// The line, and a mark below what is meant.
fn push_line(
    alloc: Global,
    shown: &mut Text,
    spot: &Spot<'_>,
    length: usize,
) -> Result<(), NoMemory> {
    push_number(shown, spot.line);
    shown.push(" | ");
    let before = push_before(alloc, shown, spot)?;
    let behind = push_behind(alloc, shown, spot)?;
    shown.push("\n      | ");
    push_many(shown, ' ', before);
    push_many(shown, '^', length.min(behind).max(1));
    shown.push("\n");
    Ok(())
}

// What is wrong, behind where it stands.
fn push_message(shown: &mut Text, file: &str, spot: &Spot<'_>, message: &str) {
    shown.pieces(&[file, ":"]);
    shown.number(spot.line as u64);
    shown.push(":");
    shown.number(spot.column as u64);
    shown.pieces(&[": error: ", message, "\n"]);
}

/// The diagnosis of a file's text as it is shown: where and what, the line with a mark below what
/// is meant, and a line for each hint.
pub fn shown(
    alloc: Global,
    file: &str,
    text: &[u8],
    diagnosis: &Diagnosis,
) -> Result<String, NoMemory> {
    let mut shown = Text::new(alloc);
    let spot = spot_of(text, diagnosis.place);
    push_message(&mut shown, file, &spot, diagnosis.message.as_str());
    push_line(alloc, &mut shown, &spot, diagnosis.length)?;
    for hint in &diagnosis.hints {
        shown.pieces(&["      = ", hint.as_str(), "\n"]);
    }
    shown.whole()
}
