// What is known of the variables of two constraints.
ghost use Rattle.std.specs.Prelude.{◌≡◌, ◌↔◌, ℕ, Decides, IsTrue};
ghost use Rattle.dsr_graph_theory.specs.Excuses.{AreDifferentRecords, AreTargetsApart, IsBoundOnce, IsEndOnce};
ghost use Rattle.dsr_graph.specs.Told.{AreFactsOf, different_by, once_by};
ghost use Rattle.dsr_goal.specs.Knowing.{known_by};
ghost use Rattle.dsr_ir.specs.declared.constraints.Var.{Var as VarOf};
ghost use Rattle.dsr_ir.specs.declared.constraints.Var.TheVariants.{First, Second};
ghost use Rattle.dsr_meaning.specs.Counting.{IsIn};
ghost use Rattle.dsr_compensate.specs.Owned.{IsSound, owner_of};

use dsr_compensate::{Owner, is_functional};
use dsr_facts::Facts;
use dsr_goal::Known;
use dsr_ir::{Quant, Var};

/// Whether each record is bound to the variable in one binding at most.
#[derive(Clone, Copy)]
pub struct BoundOnce {
    head: bool,
    first: bool,
    second: bool,
}

/// Whether the record of a variable of the one constraint is known to be another one than that of a
/// variable of the other.
#[derive(Clone, Copy)]
pub struct Different {
    first_first: bool,
    first_second: bool,
    second_first: bool,
    second_second: bool,
}

// Whether each record is the source of one pair at most, or the target.
fn is_end_once(facts: &Facts, owner: &Owner, rel: u32, var: Var) -> bool
    requires sound { IsSound owner.now }
    requires facts { AreFactsOf (owner_of owner.now) facts.now }
    ensures { Decides result (IsEndOnce (owner_of owner.now) rel var) }
{
    match var {
        Var::Head => false,
        Var::First => is_functional(owner.spec(), rel),
        Var::Second => facts.injective.items().contains(&rel),
    }
}

fn is_bound_once(facts: &Facts, owner: &Owner, var: Var) -> bool
    requires sound { IsSound owner.now }
    requires facts { AreFactsOf (owner_of owner.now) facts.now }
    ensures { Decides result
        (IsBoundOnce (owner_of owner.now) (owner_of owner.now).constraint.quant var) }
{
    match owner.constraint().quant {
        Quant::Once => matches!(var, Var::Head),
        Quant::Each(_) => matches!(var, Var::First),
        Quant::Pairs(rel) => is_end_once(facts, owner, rel, var),
    }
}

impl BoundOnce {
    /// For each variable of the constraint whether each record is bound to it in one binding at
    /// most.
    pub fn new(facts: &Facts, owner: &Owner) -> BoundOnce
        requires sound { IsSound owner.now }
        requires facts { AreFactsOf (owner_of owner.now) facts.now }
        ensures { (v : VarOf) → IsTrue (once_by result v)
            ↔ IsBoundOnce (owner_of owner.now) (owner_of owner.now).constraint.quant v }
    {
        BoundOnce {
            head: is_bound_once(facts, owner, Var::Head),
            first: is_bound_once(facts, owner, Var::First),
            second: is_bound_once(facts, owner, Var::Second),
        }
    }

    /// Whether each record is bound to this variable in one binding at most.
    pub fn of(self, var: Var) -> bool
        ensures { result ≡ once_by self var }
    {
        match var {
            Var::Head => self.head,
            Var::First => self.first,
            Var::Second => self.second,
        }
    }
}

// Whether the variables are known to be members of two sets of a pair.
fn has_known_pair(pairs: &[(u32, u32)], known: &Known, var: Var, other: &Known, at: Var) -> bool
    ensures { Decides result ((pair : ℕ × ℕ) × IsIn pair pairs.now
        × IsTrue (known_by known.now var pair.0) × IsTrue (known_by other.now at pair.1)) }
{
    for pair in pairs {
        if known.has(var, pair.0) && other.has(at, pair.1) {
            return true;
        }
    }
    false
}

fn are_different(facts: &Facts, owner: &Owner, var: Var, other: &Owner, at: Var) -> bool
    requires sound { IsSound owner.now }
    requires other_sound { IsSound other.now }
    requires same { (owner_of other.now).spec ≡ (owner_of owner.now).spec }
    requires facts { AreFactsOf (owner_of owner.now) facts.now }
    ensures { Decides result
        (AreDifferentRecords (owner_of owner.now) (owner_of other.now) var at) }
{
    has_known_pair(
        facts.exclusive.items(),
        owner.known(),
        var,
        other.known(),
        at,
    )
}

impl Different {
    /// For each two variables of the two constraints whether their records are known to be
    /// different, by the facts that the first constraint uses.
    pub fn new(facts: &Facts, owner: &Owner, other: &Owner) -> Different
        requires sound { IsSound owner.now }
        requires other_sound { IsSound other.now }
        requires same { (owner_of other.now).spec ≡ (owner_of owner.now).spec }
        requires facts { AreFactsOf (owner_of owner.now) facts.now }
        ensures { (v at : VarOf) → IsTrue (different_by result v at)
            ↔ AreDifferentRecords (owner_of owner.now) (owner_of other.now) v at }
    {
        Different {
            first_first: are_different(facts, owner, Var::First, other, Var::First),
            first_second: are_different(facts, owner, Var::First, other, Var::Second),
            second_first: are_different(facts, owner, Var::Second, other, Var::First),
            second_second: are_different(facts, owner, Var::Second, other, Var::Second),
        }
    }

    // Whether the record of the first variable is another one than that of this one.
    fn from_first(self, at: Var) -> bool
        ensures { result ≡ different_by self First at }
    {
        match at {
            Var::Head => false,
            Var::First => self.first_first,
            Var::Second => self.first_second,
        }
    }

    fn from_second(self, at: Var) -> bool
        ensures { result ≡ different_by self Second at }
    {
        match at {
            Var::Head => false,
            Var::First => self.second_first,
            Var::Second => self.second_second,
        }
    }

    /// Whether the records of these variables, of the one and the other constraint, are known to be
    /// different.
    pub fn of(self, var: Var, at: Var) -> bool
        ensures { result ≡ different_by self var at }
    {
        match var {
            Var::Head => false,
            Var::First => self.from_first(at),
            Var::Second => self.from_second(at),
        }
    }
}

/// Whether no target of the one quantifier's relation is a target of the other quantifier's.
pub fn are_targets_apart(facts: &Facts, owner: &Owner, other: &Owner) -> bool
    requires sound { IsSound owner.now }
    requires facts { AreFactsOf (owner_of owner.now) facts.now }
    ensures { Decides result (AreTargetsApart (owner_of owner.now) (owner_of other.now)) }
{
    let Quant::Pairs(rel) = owner.constraint().quant else {
        return false;
    };
    let Quant::Pairs(other_rel) = other.constraint().quant else {
        return false;
    };
    facts.apart.items().contains(&(rel, other_rel))
}
