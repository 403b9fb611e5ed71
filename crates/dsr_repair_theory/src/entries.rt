// What is told of a step.
use dsr_ir::{Binding, Element, Path, Seq};

/// A field's value that a step set.
#[derive(Clone, Copy, PartialEq, Eq)]
pub struct CellSet {
    /// The record.
    pub elem: Element,
    /// The field.
    pub path: Path,
    /// The entry of an array; 0 without one.
    pub index: u64,
    /// The value before.
    pub old: u64,
    /// The value that was set.
    pub new: u64,
}

/// A byte of an image that a step changed.
#[derive(Clone, Copy, PartialEq, Eq)]
pub struct ByteChange {
    /// The place of the byte, counted from 0.
    pub place: u64,
    pub old: u8,
    pub new: u8,
}

/// What is told of a step: for which literal it was made, and all that it changed.
#[derive(PartialEq, Eq, Drop)]
pub struct Entry {
    /// The number of the constraint.
    pub constraint: u32,
    /// The binding under which the constraint was violated.
    pub binding: Binding,
    /// The place of the conjunction in the constraint, from 0.
    pub conj: u32,
    /// The place of the literal in the conjunction, from 0.
    pub literal: u32,
    /// The number of the update's rule.
    pub rule: u32,
    /// The fresh record that was reset.
    pub reset: Option<Element>,
    /// The values that were set, in the order of the update's writes. What had its value already is
    /// left out.
    pub sets: Seq<CellSet>,
    /// Each byte that is another one afterwards, by rising place.
    pub bytes: Seq<ByteChange>,
}
