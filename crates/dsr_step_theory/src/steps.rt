// An update as it is due.
use dsr_ir::{Binding, Element};

/// An update as it is due for a false literal, with all that it leaves open.
#[derive(Clone, Copy, PartialEq, Eq)]
pub struct Step {
    /// The number of the constraint.
    pub constraint: u32,
    /// The binding under which the literal is false.
    pub binding: Binding,
    /// The place of the conjunction in the constraint, from 0.
    pub conj: u32,
    /// The place of the literal in the conjunction, from 0.
    pub literal: u32,
    /// The number of the update's rule.
    pub rule: u32,
    /// The record that is written.
    pub elem: Element,
    /// The entry of an array that is written; 0 without one.
    pub index: u64,
    /// The number of what is counted, where it is written; 0 otherwise.
    pub number: u64,
    /// The fresh record.
    pub fresh: Option<Element>,
    /// The place of the update in its template.
    pub update: u32,
}
