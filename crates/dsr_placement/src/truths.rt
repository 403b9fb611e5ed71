// What comes out true where atoms have these truth values.
ghost use Rattle.std.specs.Prelude.{◌≡◌, Decides};
ghost use Rattle.dsr_placement.specs.Atoms as said;
ghost use Rattle.dsr_placement.specs.Atoms.{IsTestedIn};
ghost use Rattle.dsr_plan_theory.specs.Plans as plans;
ghost use Rattle.dsr_plan_theory.specs.Plans.{PassesTests, SomeConjPasses};

use crate::atoms::place_of;
use dsr_ir::{Atom, Conj, Constraint, Literal, Seq};

/// The atoms of a constraint, and a truth value for each.
#[derive(Clone, Copy)]
pub struct World<'a> {
    pub atoms: &'a [Atom],
    pub truths: &'a [bool],
}

// The item at the place; false where there is none.
fn at(marks: &[bool], place: usize) -> bool
    ensures { result ≡ said.mark_at marks.now place }
{
    match marks.get(place) {
        Some(mark) => *mark,
        None => false,
    }
}

impl World<'_> {
    fn is_true(&self, atom: &Atom) -> bool
        ensures { result ≡ said.truth_by self.now.atoms.now self.now.truths.now atom.now }
    {
        at(self.truths, place_of(self.atoms, atom))
    }

    fn comes_out(&self, literal: &Literal) -> bool
        ensures { result ≡ plans.comes_out (said.truth_by self.now.atoms.now self.now.truths.now) literal.now }
    {
        if literal.negated {
            !self.is_true(&literal.atom)
        } else {
            self.is_true(&literal.atom)
        }
    }

    // Whether the literal with this place is marked and comes out false.
    fn fails(&self, tests: &[bool], place: usize, literal: &Literal) -> bool
        ensures { result ≡ said.fails (said.truth_by self.now.atoms.now self.now.truths.now) tests.now place
            literal.now }
    {
        at(tests, place) && !self.comes_out(literal)
    }

    // Whether the literals that are marked come out true.
    fn passes(&self, conj: &Conj, tests: &[bool]) -> bool
        ensures { Decides result (PassesTests (IsTestedIn tests.now)
            (said.truth_by self.now.atoms.now self.now.truths.now) conj.now) }
    {
        for (place, literal) in conj.literals.items().iter().enumerate() {
            if self.fails(tests, place, literal) {
                return false;
            }
        }
        true
    }

    /// Whether the marked literals of some conjunction come out true.
    pub fn some_passes(&self, constraint: &Constraint, tests: &[Seq<bool>]) -> bool
        ensures { Decides result (SomeConjPasses constraint.now (said.IsTested tests.now)
            (said.truth_by self.now.atoms.now self.now.truths.now)) }
    {
        for (number, conj) in constraint.conjs.items().iter().enumerate() {
            if self.passes(conj, row(tests, number)) {
                return true;
            }
        }
        false
    }
}

// The marks of the conjunction with this number.
fn row(tests: &[Seq<bool>], number: usize) -> &[bool]
    ensures { result.now ≡ said.row_at tests.now number }
{
    match tests.get(number) {
        Some(row) => row.items(),
        None => &[],
    }
}
