// Of which sets the variables of a constraint are known to be members.
ghost use Rattle.std.specs.Prelude.{◌≡◌, false, slice_index_or};
ghost use Rattle.dsr_meaning.specs.Typed.{IsTyped, IsTypedQuant};
ghost use Rattle.dsr_update_theory.specs.Templates.{TellsKnown};
ghost use Rattle.dsr_goal.specs.Knowing.{known_by};

use dsr_facts::{MOST_SETS, known_sets};
use dsr_ir::{Quant, Spec, Var};

/// For each set whether the record of the first or the second variable is known to be a member.
#[derive(Drop)]
pub struct Known {
    first: [bool; MOST_SETS],
    second: [bool; MOST_SETS],
}

// The entry of a set; false behind the last one.
fn entry(sets: &[bool], set: u32) -> bool
    ensures { result ≡ slice_index_or sets.now set false }
{
    match sets.get(set as usize) {
        Some(known) => *known,
        None => false,
    }
}

impl Known {
    /// What is known of the variables of a quantifier.
    pub fn new(spec: &Spec, quant: &Quant) -> Known
        requires typed { IsTyped spec.now }
        requires quantifier { IsTypedQuant spec.now.base quant.now }
        ensures { TellsKnown spec.now quant.now (known_by result) }
    {
        let first = known_sets(spec, quant, Var::First);
        let second = known_sets(spec, quant, Var::Second);
        Known { first, second }
    }

    /// Whether the variable's record is known to be a member of the set; the head never is.
    pub fn has(&self, var: Var, set: u32) -> bool
        ensures { result ≡ known_by self.now var set }
    {
        match var {
            Var::Head => false,
            Var::First => entry(&self.first, set),
            Var::Second => entry(&self.second, set),
        }
    }
}
