// Of which sets a variable's record is a member, whatever the image.
ghost use Rattle.std.specs.Prelude.{◌≡◌, ◌<◌, ◌↔◌, ◌⊎◌, ℕ, false, Decides, IfOk, IsTrue, MatchOption, length, slice_index_or};
ghost use Rattle.std.specs.List.Sorted.{IsStrictlyIncreasing};
ghost use Rattle.dsr_ir.specs.declared.rules.Guard.{Guard};
ghost use Rattle.dsr_ir.specs.declared.updates.Symbol.TheVariants as symbols;
ghost use Rattle.dsr_meaning.specs.Counting.{IsIn};
ghost use Rattle.dsr_meaning.specs.Typed.{IsTyped, IsTypedQuant};
ghost use Rattle.dsr_update_theory.specs.Givers.{HasGiver, IsGivenBy};
ghost use Rattle.dsr_update_theory.specs.KnownSets.{GivesMembersOf, GivesTargetsTo, IsCounterpart, IsKnown};
ghost use Rattle.dsr_facts.specs.Marks.{Begins, GivesTargetOf, IsClosed, IsMarked, IsNoneBelow, LeadsTo};

use dsr_ir::{Inc, NoMemory, Quant, Rule, Spec, Symbol, Var};
use std::alloc::Global;

/// How many sets a specification may have.
pub const MOST_SETS: usize = 64;

// Whether some rule gives facts of the symbol.
fn has_rules(spec: &Spec, symbol: Symbol) -> bool
    ensures { Decides result (HasGiver spec.now symbol) }
{
    spec.rules.items().iter().any(|rule| rule.inc.gives(symbol))
}

// Whether the rule starts from members of the set, and gives the record itself.
fn gives_members(rule: &Rule, set: u32) -> bool
    ensures { Decides result (GivesMembersOf set rule.now) }
{
    rule.premise == Some(set) && matches!(rule.inc, Inc::Own(_) | Inc::OwnPair(_, _))
}

// Whether there are rules of the symbol, and each of them gives members of the set.
fn all_give_members(spec: &Spec, symbol: Symbol, set: u32) -> bool
    ensures { Decides result (IsGivenBy spec.now symbol (GivesMembersOf set)) }
{
    let mut givers = spec
        .rules
        .items()
        .iter()
        .filter(|rule| rule.inc.gives(symbol));
    has_rules(spec, symbol) && givers.all(|rule| gives_members(rule, set))
}

// Whether the other inclusion gives the target of this one to the set.
fn gives_target(inc: Inc, other: Inc, set: u32) -> bool
    ensures { Decides result (GivesTargetOf inc other set) }
{
    match other {
        Inc::Target(own, path) => own == set && inc.target() == Some(path),
        _ => false,
    }
}

/// Whether the rule asks all that the other one asks.
pub fn has_guards(rule: &Rule, other: &Rule) -> bool
    ensures { Decides result ((guard : Guard) → IsIn guard other.now.guards
        → IsIn guard rule.now.guards) }
{
    let guards = rule.guards.items();
    other
        .guards
        .items()
        .iter()
        .all(|guard| guards.contains(guard))
}

// Whether the other rule gives the target of this one's pair to the set.
fn is_counterpart(rule: &Rule, other: &Rule, set: u32) -> bool
    ensures { Decides result (IsCounterpart rule.now other.now set) }
{
    other.premise == rule.premise
        && other.span == rule.span
        && gives_target(rule.inc, other.inc, set)
        && has_guards(rule, other)
}

// Whether some rule gives the targets of this one's pairs to the set.
fn has_counterpart(spec: &Spec, rule: &Rule, set: u32) -> bool
    ensures { Decides result (GivesTargetsTo spec.now set rule.now) }
{
    spec.rules
        .items()
        .iter()
        .any(|other| is_counterpart(rule, other, set))
}

// Whether there are rules of the relation, and the set is given the targets of their pairs.
fn all_give_targets(spec: &Spec, rel: u32, set: u32) -> bool
    ensures { Decides result (IsGivenBy spec.now (symbols.Rel rel) (GivesTargetsTo spec.now set)) }
{
    let symbol = Symbol::Rel(rel);
    let mut givers = spec
        .rules
        .items()
        .iter()
        .filter(|rule| rule.inc.gives(symbol));
    has_rules(spec, symbol) && givers.all(|rule| has_counterpart(spec, rule, set))
}

// Whether the quantifier or the rules of its relation tell that the variable's record is a member.
fn begins(spec: &Spec, quant: &Quant, var: Var, set: u32) -> bool
    ensures { Decides result (Begins spec.now quant.now var set) }
{
    match (*quant, var) {
        (Quant::Each(own), Var::First) => own == set,
        (Quant::Pairs(rel), Var::First) => all_give_members(spec, Symbol::Rel(rel), set),
        (Quant::Pairs(rel), Var::Second) => all_give_targets(spec, rel, set),
        _ => false,
    }
}

// The set of which each member of this one is a member too. All rules have the same premise, so
// there is one such set at most.
fn below(spec: &Spec, set: u32) -> Option<u32>
    ensures { MatchOption result (IsNoneBelow spec.now set)
        (λ base. IsGivenBy spec.now (symbols.Set set) (GivesMembersOf base)) }
{
    let symbol = Symbol::Set(set);
    let rule = spec
        .rules
        .items()
        .iter()
        .find(|rule| rule.inc.gives(symbol))?;
    let base = rule.premise?;
    all_give_members(spec, symbol, base).then_some(base)
}

// Marks the set, the one below it, and so on.
fn follow(spec: &Spec, marks: &mut [bool; MOST_SETS], set: u32)
    requires typed { IsTyped spec.now }
    requires declared { set < length spec.now.base.sets }
    requires closed { IsClosed spec.now marks.old }
    ensures { (other : ℕ) → IsMarked marks.new other
        ↔ (IsMarked marks.old other ⊎ LeadsTo spec.now set other) }
{
    let mut next = Some(set);
    while let Some(current) = next {
        // What is below a marked set was marked together with it.
        if marks[current as usize] {
            return;
        }
        marks[current as usize] = true;
        next = below(spec, current);
    }
}

/// For each set whether the variable's record is known to be a member.
pub fn known_sets(spec: &Spec, quant: &Quant, var: Var) -> [bool; MOST_SETS]
    requires typed { IsTyped spec.now }
    requires quantifier { IsTypedQuant spec.now.base quant.now }
    ensures { (set : ℕ) → IsTrue (slice_index_or result set false)
        ↔ IsKnown spec.now quant.now var set }
{
    let mut marks = [false; MOST_SETS];
    for set in 0..spec.base.sets.items().len() as u32 {
        if begins(spec, quant, var, set) {
            follow(spec, &mut marks, set);
        }
    }
    marks
}

/// The sets of which the variable's record is known to be a member, in order of declaration.
pub fn known(alloc: Global, spec: &Spec, quant: &Quant, var: Var) -> Result<Vec<u32>, NoMemory>
    requires typed { IsTyped spec.now }
    requires quantifier { IsTypedQuant spec.now.base quant.now }
    ensures all { IfOk result (λ sets. (set : ℕ) → IsIn set sets.items
        ↔ IsKnown spec.now quant.now var set) }
    ensures rising { IfOk result (λ sets. IsStrictlyIncreasing sets.items) }
{
    let marks = known_sets(spec, quant, var);
    let mut sets = Vec::new(alloc);
    for (set, is_known) in marks.iter().enumerate() {
        if *is_known {
            sets.push(set as u32)?;
        }
    }
    Ok(sets)
}
