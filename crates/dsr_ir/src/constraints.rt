// Consistency constraints.
use crate::{Name, Op, Seq};

/// A variable of a constraint: `head`, or the first or second one of its quantifier.
#[derive(Clone, Copy, PartialEq, Eq)]
pub enum Var {
    Head,
    First,
    Second,
}

/// What is counted, in a set or a relation by its number.
#[derive(Clone, Copy, PartialEq, Eq)]
pub enum Measure {
    /// The members of a set.
    Whole(u32),
    /// The targets of a variable under a relation.
    Out(Var, u32),
    /// The sources of a variable under a relation.
    Into(u32, Var),
}

/// What a value is compared with.
#[derive(Clone, Copy, PartialEq, Eq)]
pub enum Bound {
    Num(u64),
    /// The number of what is counted.
    Size(Measure),
}

/// A statement about the model, with a set or a relation by its number.
#[derive(Clone, Copy, PartialEq, Eq)]
pub enum Atom {
    /// The variable is in the set.
    Member(Var, u32),
    /// The pair of the variables is in the relation.
    Pair(Var, Var, u32),
    /// The number of what is counted meets the comparison, one of `Le`, `Ge` and `Eq`.
    Count(Measure, Op, u64),
    /// Every number that the relation gives to the variable meets the comparison.
    Value(Var, u32, Op, Bound),
}

/// An atom, turned round where negated; `given` marks one that is tested and never repaired.
#[derive(Clone, Copy)]
pub struct Literal {
    pub atom: Atom,
    pub negated: bool,
    pub given: bool,
}

/// Literals that are to hold together.
pub struct Conj {
    pub literals: Seq<Literal>,
}

impl Drop for Conj {
    fn drop(self) {
        let Conj { literals: _ } = self;
    }
}

/// What a constraint's variables run over.
#[derive(Clone, Copy)]
pub enum Quant {
    /// Nothing: the constraint is tested once.
    Once,
    /// The members of the set of this number.
    Each(u32),
    /// The pairs of the relation of this number.
    Pairs(u32),
}

/// A consistency constraint (OOPSLA 2003) in disjunctive normal form: at each binding of its
/// variables, every literal of one conjunction is to be true.
pub struct Constraint {
    pub name: Name,
    pub quant: Quant,
    pub conjs: Seq<Conj>,
}

impl Drop for Constraint {
    fn drop(self) {
        let Constraint {
            name: _,
            quant: _,
            conjs: _,
        } = self;
    }
}
