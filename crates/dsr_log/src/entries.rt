// Entries, as they are written and read.
use dsr_ir::{Binding, Element};
use dsr_repair_theory::{ByteChange, CellSet};
use std::marker::Model;

/// For which literal a step was made, and which record it reset.
#[derive(Clone, Copy, PartialEq, Eq)]
pub struct EntryHead {
    /// The number of the constraint.
    pub constraint: u32,
    /// The binding under which the constraint was violated.
    pub binding: Binding,
    /// The place of the conjunction in the constraint, from 0.
    pub conj: u32,
    /// The place of the literal in the conjunction, from 0.
    pub literal: u32,
    /// The number of the update's rule.
    pub rule: u32,
    /// The fresh record that was reset.
    pub reset: Option<Element>,
}

/// An entry whose sets and bytes stand elsewhere.
#[derive(Drop)]
pub struct EntryRef<'a> {
    head: EntryHead,
    sets: &'a [CellSet],
    bytes: &'a [ByteChange],
}

impl<'a> Model for EntryRef<'a> {
    ghost use Rattle.dsr_log.specs.Entries.{entry_of};
    ghost use Rattle.dsr_repair_theory.specs.declared.entries.Entry.{Entry};

    ghost Value = { Entry };

    ghost view = { λ e. entry_of e.head e.sets.now e.bytes.now };
}

impl<'a> EntryRef<'a> {
    ghost use Rattle.std.specs.Prelude.{◌≡◌};
    ghost use Rattle.dsr_log.specs.Entries.{entry_of, head_of};

    /// The entry with this head, these sets and these bytes.
    pub fn new(head: EntryHead, sets: &'a [CellSet], bytes: &'a [ByteChange]) -> EntryRef<'a>
        ensures { result ≡ entry_of head sets.now bytes.now }
    {
        EntryRef { head, sets, bytes }
    }

    /// What it is beside its sets and bytes.
    pub fn head(&self) -> &EntryHead
        ensures { result.now ≡ head_of self.now }
    {
        &self.head
    }

    /// The values that were set, in the order of the update's writes.
    pub fn sets(&self) -> &[CellSet]
        ensures { result.now ≡ self.now.sets }
    {
        self.sets
    }

    /// The bytes that were changed, by rising place.
    pub fn bytes(&self) -> &[ByteChange]
        ensures { result.now ≡ self.now.bytes }
    {
        self.bytes
    }
}
