// What a line tells.
use dsr_ir::{Binding, Element};
use dsr_repair_theory::{ByteChange, CellSet};

/// What the line of an update tells: for which literal it was made, by which rule.
#[derive(Clone, Copy)]
pub struct Head {
    /// The number of the constraint.
    pub constraint: u32,
    pub binding: Binding,
    /// The place of the conjunction in the constraint, from 0.
    pub conj: u32,
    /// The place of the literal in the conjunction, from 0.
    pub literal: u32,
    /// The number of the update's rule.
    pub rule: u32,
}

#[derive(Clone, Copy)]
pub enum Line {
    Update(Head),
    Reset(Element),
    Set(CellSet),
    Byte(ByteChange),
    End,
}

#[derive(Clone, Copy)]
pub enum Kind {
    Update,
    Reset,
    Set,
    Byte,
    End,
}

/// What stands before a line: how many updates, and of which kind the last line is.
#[derive(Clone, Copy)]
pub struct State {
    pub count: u64,
    pub last: Option<Kind>,
}
