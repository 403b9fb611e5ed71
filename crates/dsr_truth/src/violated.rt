// The violated bindings of constraints.
ghost use Rattle.std.specs.Prelude.{◌≡◌, ◌<◌, ◌≤◌, ◌+◌, ◌↔◌, None, Some, true, map, length, slice_get, slice_index, IfOk, IfSome, IsTrue, MatchOption};
ghost use Rattle.dsr_ir.specs.declared.constraints.Quant.TheVariants as quants;
ghost use Rattle.dsr_truth.specs.Only as said;
ghost use Rattle.dsr_meaning.specs.Consistency.{AreViolations, IsFirstViolated, NoneIsViolated, NoneIsViolatedBefore, bound_constraint};
ghost use Rattle.dsr_model.specs.Facts.{IsInModel};
ghost use Rattle.dsr_truth.specs.Walks.{AreFound, FindsLeastBinding, IsLaterViolated, IsViolatedAt, IsViolatedFrom, IsViolatedOf, MayBind};
ghost use Rattle.dsr_meaning.specs.Limits.{most_constraints};

use crate::literals::{holds_for_pairs, is_met, is_satisfied, only_literal, sources_literal};
use crate::walks::{is_binding, next_binding};
use dsr_ir::{Binding, Constraint, Literal, NoMemory, Quant, Spec};
use dsr_model::Model;
use std::alloc::Global;

// The least violated binding of a constraint that comes after another one, or the least of all. The
// quantifier and the only literal are the constraint's; where their kinds are known, the walk is a
// loop of these alone.
#[inline(always)]
fn next_violated_over(
    model: &Model,
    constraint: &Constraint,
    quant: Quant,
    only: Option<Literal>,
    before: Option<Binding>,
) -> Option<Binding>
    requires ordered { model.now.ordered ≡ true }
    requires own { constraint.now.quant ≡ quant }
    requires alone { only ≡ said.only_literal constraint.now }
    requires kind { IfSome before (MayBind model.now constraint.now.quant) }
    ensures { FindsLeastBinding (IsLaterViolated (IsInModel model.now) constraint.now before) result }
{
    let mut last = before;
    let mut near = 0;
    while let Some(binding) = next_binding(model, quant, last, near) {
        if !is_met(model, constraint, only, &binding) {
            return Some(binding);
        }
        near = near.saturating_add(usize::from(last.is_some()));
        last = Some(binding);
    }
    None
}

// The same for a constraint over pairs.
fn next_violated_pair(
    model: &Model,
    constraint: &Constraint,
    rel: u32,
    before: Option<Binding>,
) -> Option<Binding>
    requires ordered { model.now.ordered ≡ true }
    requires own { constraint.now.quant ≡ quants.Pairs rel }
    requires kind { IfSome before (MayBind model.now constraint.now.quant) }
    ensures { FindsLeastBinding
        (IsLaterViolated (IsInModel model.now) constraint.now before) result }
{
    let quant = Quant::Pairs(rel);
    let only = only_literal(constraint);
    if holds_for_pairs(model, only) {
        return None;
    }
    match sources_literal(only) {
        Some(known) => next_violated_over(model, constraint, quant, Some(known), before),
        None => next_violated_over(model, constraint, quant, only, before),
    }
}

// The least violated binding of a constraint that comes after another one, or the least of all.
fn next_violated(model: &Model, constraint: &Constraint, before: Option<Binding>) -> Option<Binding>
    requires ordered { model.now.ordered ≡ true }
    requires kind { IfSome before (MayBind model.now constraint.now.quant) }
    ensures { FindsLeastBinding (IsLaterViolated (IsInModel model.now) constraint.now before) result }
{
    let only = only_literal(constraint);
    match constraint.quant {
        Quant::Once => next_violated_over(model, constraint, Quant::Once, only, before),
        Quant::Each(set) => next_violated_over(model, constraint, Quant::Each(set), only, before),
        Quant::Pairs(rel) => next_violated_pair(model, constraint, rel, before),
    }
}

// Appends the violated bindings of the constraint that has this number. The quantifier and the only
// literal are the constraint's; where their kinds are known, the walk is a loop of these alone.
#[inline(always)]
fn violations_over(
    model: &Model,
    spec: &Spec,
    number: u32,
    constraint: &Constraint,
    quant: Quant,
    only: Option<Literal>,
    found: &mut Vec<(u32, Binding)>,
) -> Result<(), NoMemory>
    requires ordered { model.now.ordered ≡ true }
    requires declared { slice_get spec.now.constraints number ≡ Some constraint.now }
    requires own { constraint.now.quant ≡ quant }
    requires alone { only ≡ said.only_literal constraint.now }
    requires before { AreFound (IsInModel model.now) spec.now number None
        (map bound_constraint found.old.items) }
    ensures { IfOk result (λ _. AreFound (IsInModel model.now) spec.now (number + 1) None
        (map bound_constraint found.new.items)) }
{
    let mut last = None;
    let mut near = 0;
    while let Some(binding) = next_binding(model, quant, last, near) {
        if !is_met(model, constraint, only, &binding) {
            found.push((number, binding))?;
        }
        near = near.saturating_add(usize::from(last.is_some()));
        last = Some(binding);
    }
    Ok(())
}

// Appends the violated bindings of the constraint that has this number: one over pairs.
fn pair_violations(
    model: &Model,
    spec: &Spec,
    number: u32,
    constraint: &Constraint,
    rel: u32,
    found: &mut Vec<(u32, Binding)>,
) -> Result<(), NoMemory>
    requires ordered { model.now.ordered ≡ true }
    requires declared { slice_get spec.now.constraints number ≡ Some constraint.now }
    requires own { constraint.now.quant ≡ quants.Pairs rel }
    requires before { AreFound (IsInModel model.now) spec.now number None
        (map bound_constraint found.old.items) }
    ensures { IfOk result (λ _. AreFound (IsInModel model.now) spec.now (number + 1) None
        (map bound_constraint found.new.items)) }
{
    let quant = Quant::Pairs(rel);
    let only = only_literal(constraint);
    if holds_for_pairs(model, only) {
        return Ok(());
    }
    match sources_literal(only) {
        Some(known) => {
            violations_over(model, spec, number, constraint, quant, Some(known), found)
        }
        None => violations_over(model, spec, number, constraint, quant, only, found),
    }
}

// Appends the violated bindings of the constraint that has this number.
fn constraint_violations(
    model: &Model,
    spec: &Spec,
    number: u32,
    constraint: &Constraint,
    found: &mut Vec<(u32, Binding)>,
) -> Result<(), NoMemory>
    requires ordered { model.now.ordered ≡ true }
    requires declared { slice_get spec.now.constraints number ≡ Some constraint.now }
    requires before { AreFound (IsInModel model.now) spec.now number None
        (map bound_constraint found.old.items) }
    ensures { IfOk result (λ _. AreFound (IsInModel model.now) spec.now (number + 1) None
        (map bound_constraint found.new.items)) }
{
    let only = only_literal(constraint);
    match constraint.quant {
        Quant::Once => violations_over(model, spec, number, constraint, Quant::Once, only, found),
        Quant::Each(set) => violations_over(
            model,
            spec,
            number,
            constraint,
            Quant::Each(set),
            only,
            found,
        ),
        Quant::Pairs(rel) => pair_violations(model, spec, number, constraint, rel, found),
    }
}

/// All violated bindings, each with the number of its constraint: constraints in order of
/// declaration, and the bindings of each least first.
pub fn violations(
    alloc: Global,
    model: &Model,
    spec: &Spec,
) -> Result<Vec<(u32, Binding)>, NoMemory>
    requires ordered { model.now.ordered ≡ true }
    requires few { length spec.now.constraints ≤ most_constraints }
    ensures { IfOk result (λ vs. AreViolations (IsInModel model.now) spec.now (map bound_constraint vs.items)) }
{
    let mut found = Vec::new(alloc);
    for (number, constraint) in spec.constraints.items().iter().enumerate() {
        constraint_violations(model, spec, number as u32, constraint, &mut found)?;
    }
    Ok(found)
}

// The least violated binding of the constraint with this number.
fn first_of(model: &Model, spec: &Spec, number: u32) -> Option<Binding>
    requires ordered { model.now.ordered ≡ true }
    ensures { FindsLeastBinding (IsViolatedOf (IsInModel model.now) spec.now number) result }
{
    let constraint = spec.constraints.items().get(number as usize)?;
    next_violated(model, constraint, None)
}

/// The first constraint of an order, by the numbers of constraints, that has a violated binding,
/// with the least of these; none where no constraint of the order has one.
pub fn first_violated(model: &Model, spec: &Spec, order: &[u32]) -> Option<(u32, Binding)>
    requires ordered { model.now.ordered ≡ true }
    ensures { MatchOption result (NoneIsViolated (IsInModel model.now) spec.now order.now)
        (λ v. IsFirstViolated (IsInModel model.now) spec.now order.now (bound_constraint v)) }
{
    for number in order {
        if let Some(binding) = first_of(model, spec, *number) {
            return Some((*number, binding));
        }
    }
    None
}

// Whether a binding of a constraint is violated.
fn is_violated(model: &Model, constraint: &Constraint, binding: &Binding) -> bool
    requires ordered { model.now.ordered ≡ true }
    ensures { IsTrue result ↔ IsViolatedAt (IsInModel model.now) constraint.now binding.now }
{
    is_binding(model, constraint.quant, binding) && !is_satisfied(model, constraint, binding)
}

// The least violated binding of the constraint with this number that doesn't come before this one.
fn first_of_from(model: &Model, spec: &Spec, number: u32, binding: &Binding) -> Option<Binding>
    requires ordered { model.now.ordered ≡ true }
    requires kind { IfSome (slice_get spec.now.constraints number)
        (λ constraint. MayBind model.now constraint.quant binding.now) }
    ensures { FindsLeastBinding (IsViolatedFrom (IsInModel model.now) spec.now number binding.now) result }
{
    let constraint = spec.constraints.items().get(number as usize)?;
    if is_violated(model, constraint, binding) {
        return Some(*binding);
    }
    next_violated(model, constraint, Some(*binding))
}

/// As `first_violated`, where nothing is violated before a binding of the constraint at a place of
/// the order: the search begins there.
pub fn first_from(
    model: &Model,
    spec: &Spec,
    order: &[u32],
    at: usize,
    binding: &Binding,
) -> Option<(u32, Binding)>
    requires ordered { model.now.ordered ≡ true }
    requires place { at < length order.now }
    requires kind { IfSome (slice_get spec.now.constraints (slice_index order.now at))
        (λ constraint. MayBind model.now constraint.quant binding.now) }
    requires before { NoneIsViolatedBefore (IsInModel model.now) spec.now order.now at binding.now }
    ensures { MatchOption result (NoneIsViolated (IsInModel model.now) spec.now order.now)
        (λ v. IsFirstViolated (IsInModel model.now) spec.now order.now (bound_constraint v)) }
{
    let number = order[at];
    if let Some(found) = first_of_from(model, spec, number, binding) {
        return Some((number, found));
    }
    first_violated(model, spec, &order[at + 1..])
}
