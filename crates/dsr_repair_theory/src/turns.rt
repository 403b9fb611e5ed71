// What a repair does next.
use dsr_ir::Binding;
use dsr_step_theory::Step;

/// A fresh record that is needed where the supply has none. It tells an author which supply is too
/// small, and for what.
#[derive(Clone, Copy, PartialEq, Eq)]
pub struct Need {
    /// The pool of the record, counted from 1.
    pub pool: u32,
    /// The number of the constraint.
    pub constraint: u32,
    /// The binding under which it is violated.
    pub binding: Binding,
    /// The place of the conjunction in the constraint, from 0.
    pub conj: u32,
    /// The place of the literal in the conjunction, from 0.
    pub literal: u32,
}

/// What a repair does next on an image.
#[derive(Clone, Copy, PartialEq, Eq)]
pub enum Turn {
    /// Nothing: the image is consistent.
    Done,
    /// This step.
    Step(Step),
    /// Nothing: the next step needs a fresh record, and there is none.
    Empty(Need),
}

/// How a repair ends.
#[derive(Clone, Copy, PartialEq, Eq)]
pub enum Outcome {
    /// The image is consistent.
    Consistent,
    /// The next step needs a fresh record, and there is none.
    Empty(Need),
}
