// The search for the violated binding that is to be repaired next, from where the last one was
// found.
ghost use Rattle.std.specs.Prelude.{◌≡◌, ◌<◌, ◌≤◌, None, Some, length, slice_get, slice_index, true, IfOk, IfSome, IsTrue, MatchOption};
ghost use Rattle.dsr_repair.specs.Cursors.{AreSatisfiedBefore, IsCursor};
ghost use Rattle.dsr_repair.specs.Orders.{IsRepairOrder};
ghost use Rattle.dsr_repair.specs.Violations.{IsNextViolation, bound_of};
ghost use Rattle.dsr_ir.specs.declared.tuples.Target.TheVariants.{Elem};
ghost use Rattle.dsr_meaning.specs.Consistency.{AreSatisfied, IsFirstViolated, NoneIsViolated, NoneIsViolatedBefore, bound_constraint};
ghost use Rattle.dsr_model.specs.Facts.{IsInModel, pool_of};
ghost use Rattle.dsr_relations.specs.Tuples.{MayBeTuple};
ghost use Rattle.dsr_truth.specs.Walks.{MayBind};
ghost use Rattle.dsr_meaning.specs.Limits.{most_constraints};

use crate::bindings::Violation;
use crate::orders::repair_order;
use dsr_ir::{Binding, Element, Fact, NoMemory, Quant, Spec, Symbol, Target};
use dsr_model::Model;
use dsr_plan_theory::Choice;
use dsr_truth::{first_from, first_violated};
use std::alloc::Global;

/// Where the search for what is due goes on.
#[derive(Drop)]
pub struct Cursor {
    /// The numbers of the constraints by rising level, and on one level in order of declaration.
    pub order: Vec<u32>,
    /// The violated binding for which the last step was made; none before the first one.
    pub last: Option<Violation>,
}

impl Cursor {
    /// A cursor from which all bindings are looked at.
    pub fn new(alloc: Global, choice: &Choice) -> Result<Cursor, NoMemory>
        requires few { length choice.now.rows ≤ most_constraints }
        ensures ordered { IfOk result (λ cursor. IsRepairOrder choice.now cursor.order.items) }
        ensures begins { IfOk result (λ cursor. cursor.last ≡ None) }
    {
        Ok(Cursor {
            order: repair_order(alloc, choice)?,
            last: None,
        })
    }
}

// The place of a constraint in the order.
fn place_of(order: &[u32], constraint: u32) -> Option<usize>
    ensures { IfSome result (λ at. slice_get order.now at ≡ Some constraint) }
{
    for (at, number) in order.iter().enumerate() {
        if *number == constraint {
            return Some(at);
        }
    }
    None
}

// Whether the record is of the pool.
fn is_of_pool(elem: Element, pool: u32) -> bool
    ensures { IsTrue result → elem.pool ≡ pool }
{
    elem.pool == pool
}

// Whether the record is of the set's pool.
fn is_of_set(model: &Model, set: u32, elem: Element) -> bool
    ensures { IsTrue result → elem.pool ≡ pool_of model.now set }
{
    match model.members().pool(set) {
        Some(pool) => is_of_pool(elem, pool),
        None => false,
    }
}

// The first pair of records of a relation.
fn first_pair(model: &Model, rel: u32) -> Option<(Element, Element)>
    requires ordered { model.now.ordered ≡ true }
    ensures { IfSome result (λ pair. MayBeTuple model.now.relations rel pair.0 (Elem pair.1)) }
{
    let first = model.after(Symbol::Rel(rel), None)?;
    match first {
        Fact::Pair(_, source, target) => match target {
            Target::Elem(target) => Some((source, target)),
            Target::Num(_) => None,
        },
        Fact::Member(_, _) => None,
    }
}

// Whether the records are of the pools of a relation that has pairs.
fn are_of_relation(model: &Model, rel: u32, source: Element, target: Element) -> bool
    requires ordered { model.now.ordered ≡ true }
    ensures { IsTrue result → MayBeTuple model.now.relations rel source (Elem target) }
{
    let Some((from, to)) = first_pair(model, rel) else {
        return false;
    };
    if !is_of_pool(source, from.pool) {
        return false;
    }
    is_of_pool(target, to.pool)
}

// Whether the binding is one that the quantifier may have, by its pools. Of a relation without
// pairs nothing is bound.
fn may_bind(model: &Model, quant: Quant, binding: &Binding) -> bool
    requires ordered { model.now.ordered ≡ true }
    ensures { IsTrue result → MayBind model.now quant binding.now }
{
    match (quant, *binding) {
        (Quant::Once, Binding::Once) => true,
        (Quant::Each(set), Binding::Each(elem)) => is_of_set(model, set, elem),
        (Quant::Pairs(rel), Binding::Pair(source, target)) => {
            are_of_relation(model, rel, source, target)
        }
        _ => false,
    }
}

// Whether a search may begin at this binding of the constraint with this number.
fn may_begin(model: &Model, spec: &Spec, number: u32, binding: &Binding) -> bool
    requires ordered { model.now.ordered ≡ true }
    ensures { IsTrue result → IfSome (slice_get spec.now.constraints number)
        (λ constraint. MayBind model.now constraint.quant binding.now) }
{
    match spec.constraints.items().get(number as usize) {
        Some(constraint) => may_bind(model, constraint.quant, binding),
        None => false,
    }
}

// The first violated binding in the order, where nothing is violated before this one of the
// constraint at a place.
fn first_at(
    model: &Model,
    spec: &Spec,
    order: &[u32],
    at: usize,
    binding: &Binding,
) -> Option<(u32, Binding)>
    requires ordered { model.now.ordered ≡ true }
    requires place { at < length order.now }
    requires before { NoneIsViolatedBefore (IsInModel model.now) spec.now order.now at binding.now }
    ensures { MatchOption result (NoneIsViolated (IsInModel model.now) spec.now order.now)
        (λ v. IsFirstViolated (IsInModel model.now) spec.now order.now (bound_constraint v)) }
{
    if may_begin(model, spec, order[at], binding) {
        return first_from(model, spec, order, at, binding);
    }
    first_violated(model, spec, &order[at..])
}

// The first violated binding in the order, where nothing is violated before the last one.
fn first_after(
    model: &Model,
    spec: &Spec,
    _choice: &Choice,
    order: &[u32],
    last: Violation,
) -> Option<(u32, Binding)>
    requires ordered { model.now.ordered ≡ true }
    requires order { IsRepairOrder _choice.now order.now }
    requires before { AreSatisfiedBefore (IsInModel model.now) spec.now _choice.now (bound_of last) }
    ensures { MatchOption result (NoneIsViolated (IsInModel model.now) spec.now order.now)
        (λ v. IsFirstViolated (IsInModel model.now) spec.now order.now (bound_constraint v)) }
{
    match place_of(order, last.constraint) {
        Some(at) => first_at(model, spec, order, at, &last.binding),
        None => first_violated(model, spec, order),
    }
}

// The first violated binding in the order of a cursor.
fn first_by(model: &Model, spec: &Spec, choice: &Choice, cursor: &Cursor) -> Option<(u32, Binding)>
    requires ordered { model.now.ordered ≡ true }
    requires cursor { IsCursor (IsInModel model.now) spec.now choice.now cursor.now }
    ensures { MatchOption result (NoneIsViolated (IsInModel model.now) spec.now cursor.now.order.items)
        (λ v. IsFirstViolated (IsInModel model.now) spec.now cursor.now.order.items (bound_constraint v)) }
{
    match cursor.last {
        Some(last) => first_after(model, spec, choice, &cursor.order, last),
        None => first_violated(model, spec, &cursor.order),
    }
}

/// The violation that is to be repaired next, found from a cursor on; none where nothing is
/// violated.
pub fn next_from(model: &Model, spec: &Spec, choice: &Choice, cursor: &Cursor) -> Option<Violation>
    requires ordered { model.now.ordered ≡ true }
    requires as_many { length choice.now.rows ≡ length spec.now.constraints }
    requires cursor { IsCursor (IsInModel model.now) spec.now choice.now cursor.now }
    ensures { MatchOption result (AreSatisfied (IsInModel model.now) spec.now)
        (IsNextViolation (IsInModel model.now) spec.now choice.now) }
{
    match first_by(model, spec, choice, cursor) {
        Some((constraint, binding)) => Some(Violation {
            constraint,
            binding,
        }),
        None => None,
    }
}
