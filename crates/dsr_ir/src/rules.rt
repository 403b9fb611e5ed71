// Model definition rules.
use crate::{FieldRef, Seq, Symbol};

/// A comparison of two numbers.
#[derive(Clone, Copy, PartialEq, Eq)]
pub enum Op {
    /// `=`
    Eq,
    /// `!=`
    Ne,
    /// `<`
    Lt,
    /// `<=`
    Le,
    /// `>`
    Gt,
    /// `>=`
    Ge,
}

/// A field of the premise's record, at the rule's index where it is an array.
#[derive(Clone, Copy, PartialEq, Eq)]
pub struct Path {
    pub field: FieldRef,
    pub indexed: bool,
}

/// A test of a field's value.
#[derive(Clone, Copy, PartialEq, Eq)]
pub enum Test {
    /// The number meets the comparison.
    Cmp(Op, u64),
    /// The reference is the code of a slot.
    Legal,
    /// The reference is neither the code of a slot nor that of no slot.
    Illegal,
    /// The reference is the code of no slot.
    IsNone,
    /// The reference is not the code of no slot, be it legal or not.
    IsSome,
}

/// A condition of a rule on a field.
#[derive(Clone, Copy, PartialEq, Eq)]
pub struct Guard {
    pub path: Path,
    pub test: Test,
}

/// What a rule's index runs over.
#[derive(Clone, Copy, PartialEq, Eq)]
pub enum Span {
    /// Nothing: the rule has no index.
    Single,
    /// The entries of an array of the premise's record.
    Array(FieldRef),
    /// The slots of a pool, counted from 1.
    Slots(u32),
}

/// What a rule gives: the symbol's number, then the pool where a slot is named, then the path.
#[derive(Clone, Copy, PartialEq, Eq)]
pub enum Inc {
    /// The record is in the set.
    Own(u32),
    /// The target of a reference is in the set.
    Target(u32, Path),
    /// The slot at the index is in the set.
    Slot(u32, u32),
    /// The record with a field's value is in the relation.
    OwnPair(u32, Path),
    /// The slot at the index with a field's value is in the relation.
    SlotPair(u32, u32, Path),
}

impl Inc {
    ghost use Rattle.std.specs.Prelude.{◌≡◌};
    ghost use Rattle.dsr_ir.specs.Rules.{symbol_of, target_of, gives};

    /// The set of the member, or the relation of the pair.
    pub fn symbol(&self) -> Symbol
        ensures { result ≡ symbol_of self.now }
    {
        match *self {
            Inc::Own(set) | Inc::Target(set, _) | Inc::Slot(set, _) => Symbol::Set(set),
            Inc::OwnPair(rel, _) | Inc::SlotPair(rel, _, _) => Symbol::Rel(rel),
        }
    }

    /// The path that is read for the target; none where the member is the record or a slot itself.
    pub fn target(&self) -> Option<Path>
        ensures { result ≡ target_of self.now }
    {
        match *self {
            Inc::Own(_) | Inc::Slot(_, _) => None,
            Inc::Target(_, path) | Inc::OwnPair(_, path) | Inc::SlotPair(_, _, path) => Some(path),
        }
    }

    /// Whether facts of this set or relation are given.
    pub fn gives(&self, symbol: Symbol) -> bool
        ensures { result ≡ gives symbol self.now }
    {
        match (self.symbol(), symbol) {
            (Symbol::Set(own), Symbol::Set(set)) => own == set,
            (Symbol::Rel(own), Symbol::Rel(rel)) => own == rel,
            _ => false,
        }
    }
}

/// A model definition rule (OOPSLA 2003): from a premise and guards to an inclusion.
pub struct Rule {
    /// The number of the premise's set; none where the premise is `head`.
    pub premise: Option<u32>,
    pub span: Span,
    pub guards: Seq<Guard>,
    pub inc: Inc,
}

impl Drop for Rule {
    fn drop(self) {
        let Rule {
            premise: _,
            span: _,
            guards: _,
            inc: _,
        } = self;
    }
}
