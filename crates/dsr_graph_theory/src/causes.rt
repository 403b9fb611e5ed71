// What may turn a literal false, whatever the image.
use dsr_ir::{Symbol, Var};

/// What happens to a set or a relation by which a constraint may be broken.
#[derive(Clone, Copy, PartialEq, Eq)]
pub enum Reason {
    /// The set gains a member, or the relation a pair.
    Gain(Symbol),
    /// It loses a member or a pair.
    Loss(Symbol),
}

/// A reason, with the variable at whose record the set or the relation is read. So the gain of a
/// quantifier, which nothing excuses, is a cause like the others.
#[derive(Clone, Copy, PartialEq, Eq)]
pub struct Cause {
    pub reason: Reason,
    /// None where the set or the relation is read of all records.
    pub at: Option<Var>,
}
