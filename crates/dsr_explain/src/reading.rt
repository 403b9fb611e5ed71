// Specifications that are read.
ghost use Rattle.std.specs.Prelude.{◌≡◌};
ghost use Rattle.dsr_meaning.specs.Typed.{IsTyped};
ghost use Rattle.dsr_explain.specs.Readings.{IsTypedRead};

use crate::limits::{MORE_THAN_SPEC, SPEC_LIMIT};
use dsr_diagnosis::{Diagnosis, diagnose, shown};
use dsr_ir::Spec;
use dsr_names::SpecFault;
use dsr_parse::{SyntaxFault, parse};
use dsr_spec::spec;
use dsr_store::{Shelf, ShelfFault};
use dsr_tree::Tree;
use dsr_wording::Text;
use std::alloc::Global;

/// A specification, with its text and its tree.
pub struct Meaning {
    pub text: Vec<u8>,
    pub tree: Tree,
    pub spec: Spec,
}

impl Drop for Meaning {
    fn drop(self) {
        let Meaning {
            text: _,
            tree: _,
            spec: _,
        } = self;
    }
}

/// What came of reading a specification.
#[derive(Drop)]
pub enum SpecRead {
    Means(Meaning),
    /// The text, and what is wrong with it.
    Refused(Vec<u8>, Diagnosis),
    /// The file has more bytes than a text may have.
    TooLong,
    /// The file couldn't be read.
    Missed,
    /// Memory ran out.
    NoMemory,
}

// What comes of a text that means nothing.
fn refused(alloc: Global, text: Vec<u8>) -> SpecRead
    ensures typed { IsTypedRead result }
{
    match diagnose(alloc, &text) {
        Ok(Some(diagnosis)) => SpecRead::Refused(text, diagnosis),
        Ok(None) => SpecRead::Missed,
        Err(_) => SpecRead::NoMemory,
    }
}

// What comes of a text with its tree.
fn read_tree(alloc: Global, text: Vec<u8>, tree: Tree) -> SpecRead
    ensures typed { IsTypedRead result }
{
    match spec(alloc, &tree) {
        Ok(spec) => SpecRead::Means(Meaning { text, tree, spec }),
        Err(SpecFault::NoMemory) => SpecRead::NoMemory,
        Err(_) => refused(alloc, text),
    }
}

// What comes of the first bytes of a file.
fn read_text(alloc: Global, text: Vec<u8>) -> SpecRead
    ensures typed { IsTypedRead result }
{
    if text.len() as u64 > SPEC_LIMIT {
        return SpecRead::TooLong;
    }
    match parse(alloc, &text) {
        Ok(tree) => read_tree(alloc, text, tree),
        Err(SyntaxFault::NoMemory) => SpecRead::NoMemory,
        Err(_) => refused(alloc, text),
    }
}

/// Reads a specification.
pub fn read_spec<F: Shelf>(alloc: Global, shelf: &mut F, name: &str) -> SpecRead
    ensures held { F.held shelf.new ≡ F.held shelf.old }
    ensures typed { IsTypedRead result }
{
    match shelf.load(alloc, name, MORE_THAN_SPEC) {
        Ok(text) => read_text(alloc, text),
        Err(ShelfFault::Failed) => SpecRead::Missed,
        Err(ShelfFault::NoMemory) => SpecRead::NoMemory,
    }
}

/// Appends what is wrong with the text of a specification.
pub fn push_diagnosis(text: &mut Text, name: &str, source: &[u8], diagnosis: &Diagnosis) {
    match shown(text.allocator(), name, source, diagnosis) {
        Ok(told) => text.push(told.as_str()),
        Err(_) => text.cut(),
    }
}
