// When literals and conjunctions are true.
ghost use Rattle.std.specs.Prelude.{◌≡◌, ◌↔◌, ℕ, true, Some, IfSome, IsFalse, IsSome, IsTrue, IsSomeAnd, MatchBool, MatchOption, slice_get};
ghost use Rattle.dsr_ir.specs.declared.tuples.Binding.TheVariants as bindings;
ghost use Rattle.dsr_ir.specs.declared.tuples.Element as elements;
ghost use Rattle.dsr_ir.specs.declared.tuples.Fact.TheVariants as facts;
ghost use Rattle.dsr_ir.specs.declared.constraints.Atom.TheVariants as atoms;
ghost use Rattle.dsr_ir.specs.declared.constraints.Measure.TheVariants as measures;
ghost use Rattle.dsr_ir.specs.declared.constraints.Var.TheVariants as vars;
ghost use Rattle.dsr_ir.specs.declared.tuples.Target.TheVariants.{Elem, Num};
ghost use Rattle.dsr_meaning.specs.Consistency.{ConjHolds};
ghost use Rattle.dsr_meaning.specs.Instances.{Compares};
ghost use Rattle.dsr_meaning.specs.Truth.{AtomHolds, HasBound, HasSize, LiteralHolds};
ghost use Rattle.dsr_model.specs.Facts.{IsInModel};
ghost use Rattle.dsr_truth.specs.Only as said;
ghost use Rattle.dsr_truth.specs.Values.{FindsGreatestValue, ReachDown, ReachUp, SomeFails};
ghost use Rattle.dsr_truth.specs.Walks.{HoldsForPairs, IsSatisfied, IsUnsatisfied};

use dsr_ir::{
    Atom, Binding, Bound, Conj, Constraint, Element, Fact, Literal, Measure, Op, Spec, Target, Var,
};
use dsr_model::Model;
use dsr_schema::{compares, element_of};

// The number of what is counted; none where the binding hasn't got the variable.
#[inline(always)]
fn size_of(model: &Model, measure: &Measure, binding: &Binding) -> Option<u64>
    requires { model.now.ordered ≡ true }
    ensures { MatchOption result ((n : ℕ) → HasSize (IsInModel model.now) binding.now measure.now n → ⊥)
        (HasSize (IsInModel model.now) binding.now measure.now) }
{
    match *measure {
        Measure::Whole(_) => {}
        Measure::Out(var, _) | Measure::Into(_, var) => {
            element_of(binding, var)?;
        }
    }
    Some(model.size(measure, binding))
}

// The number that values are compared with; none where the binding hasn't got the variable of a
// size.
#[inline]
fn bound_of(model: &Model, bound: &Bound, binding: &Binding) -> Option<u64>
    requires { model.now.ordered ≡ true }
    ensures { MatchOption result ((n : ℕ) → HasBound (IsInModel model.now) binding.now bound.now n → ⊥)
        (HasBound (IsInModel model.now) binding.now bound.now) }
{
    match bound {
        Bound::Num(number) => Some(*number),
        Bound::Size(measure) => size_of(model, measure, binding),
    }
}

// The greatest number that a relation gives to an element.
#[inline]
fn greatest_value(model: &Model, rel: u32, source: Element) -> Option<u64>
    requires { model.now.ordered ≡ true }
    ensures { FindsGreatestValue (λ value. IsInModel model.now (facts.Pair rel source (Num value))) result }
{
    let fact = model.greatest(&Measure::Out(Var::First, rel), &Binding::Each(source))?;
    match fact {
        Fact::Pair(_, _, target) => match target {
            Target::Num(value) => Some(value),
            Target::Elem(_) => None,
        },
        Fact::Member(_, _) => None,
    }
}

// Whether the greatest number that a relation gives to an element meets the comparison, or there is
// none.
#[inline]
fn greatest_compares(model: &Model, rel: u32, source: Element, op: Op, number: u64) -> bool
    requires { model.now.ordered ≡ true }
    ensures { MatchBool result
        (ReachUp (λ value. IsInModel model.now (facts.Pair rel source (Num value))) op number)
        (SomeFails (λ value. IsInModel model.now (facts.Pair rel source (Num value))) op number) }
{
    match greatest_value(model, rel, source) {
        Some(value) => compares(op, value, number),
        None => true,
    }
}

// Whether the least number that a relation gives to an element meets the comparison, or there is
// none.
#[inline]
fn least_compares(model: &Model, rel: u32, source: Element, op: Op, number: u64) -> bool
    requires { model.now.ordered ≡ true }
    ensures { MatchBool result
        (ReachDown (λ value. IsInModel model.now (facts.Pair rel source (Num value))) op number)
        (SomeFails (λ value. IsInModel model.now (facts.Pair rel source (Num value))) op number) }
{
    match model.next_value(rel, source, 0) {
        Some(value) => compares(op, value, number),
        None => true,
    }
}

// Whether a relation gives a number to an element.
#[inline]
fn has_value(model: &Model, rel: u32, source: Element, number: u64) -> bool
    requires { model.now.ordered ≡ true }
    ensures { IsTrue result ↔ IsInModel model.now (facts.Pair rel source (Num number)) }
{
    model.has(&Fact::Pair(rel, source, Target::Num(number)))
}

// Whether every number that a relation gives to an element meets the comparison. The least and the
// greatest of them tell it, however many there are.
fn values_compare(model: &Model, rel: u32, source: Element, op: Op, number: u64) -> bool
    requires { model.now.ordered ≡ true }
    ensures { IsTrue result ↔ ((value : ℕ) → IsInModel model.now (facts.Pair rel source (Num value))
        → Compares op value number) }
{
    match op {
        Op::Lt | Op::Le => greatest_compares(model, rel, source, op, number),
        Op::Gt | Op::Ge => least_compares(model, rel, source, op, number),
        Op::Eq => {
            least_compares(model, rel, source, op, number)
                && greatest_compares(model, rel, source, op, number)
        }
        Op::Ne => !has_value(model, rel, source, number),
    }
}

// Whether an element is a member of a set.
#[inline]
fn is_member(model: &Model, elem: Option<Element>, set: u32) -> bool
    requires { model.now.ordered ≡ true }
    ensures { IsTrue result ↔ IsSomeAnd elem (λ e. IsInModel model.now (facts.Member set e)) }
{
    match elem {
        Some(elem) => model.has(&Fact::Member(set, elem)),
        None => false,
    }
}

// Whether a pair of elements is in a relation.
#[inline]
fn is_pair(model: &Model, source: Option<Element>, target: Option<Element>, rel: u32) -> bool
    requires { model.now.ordered ≡ true }
    ensures { IsTrue result ↔ IsSomeAnd source (λ x. IsSomeAnd target (λ y.
        IsInModel model.now (facts.Pair rel x (Elem y)))) }
{
    let Some(source) = source else {
        return false;
    };
    let Some(target) = target else {
        return false;
    };
    model.has(&Fact::Pair(rel, source, Target::Elem(target)))
}

// Whether what is counted meets the comparison.
#[inline(always)]
fn size_compares(model: &Model, measure: &Measure, op: Op, number: u64, binding: &Binding) -> bool
    requires { model.now.ordered ≡ true }
    ensures { IsTrue result ↔ AtomHolds (IsInModel model.now) binding.now (atoms.Count measure.now op number) }
{
    match size_of(model, measure, binding) {
        Some(size) => compares(op, size, number),
        None => false,
    }
}

// Whether all values of a variable meet the comparison.
#[inline]
fn value_compares(
    model: &Model,
    var: Var,
    rel: u32,
    op: Op,
    bound: &Bound,
    binding: &Binding,
) -> bool
    requires { model.now.ordered ≡ true }
    ensures { IsTrue result ↔ AtomHolds (IsInModel model.now) binding.now (atoms.Value var rel op bound.now) }
{
    let Some(source) = element_of(binding, var) else {
        return false;
    };
    let Some(number) = bound_of(model, bound, binding) else {
        return false;
    };
    values_compare(model, rel, source, op, number)
}

// Whether an atom is true.
#[inline(always)]
fn atom_holds(model: &Model, atom: &Atom, binding: &Binding) -> bool
    requires { model.now.ordered ≡ true }
    ensures { IsTrue result ↔ AtomHolds (IsInModel model.now) binding.now atom.now }
{
    match atom {
        Atom::Member(var, set) => is_member(model, element_of(binding, *var), *set),
        Atom::Pair(first, second, rel) => is_pair(
            model,
            element_of(binding, *first),
            element_of(binding, *second),
            *rel,
        ),
        Atom::Count(measure, op, number) => size_compares(model, measure, *op, *number, binding),
        Atom::Value(var, rel, op, bound) => {
            value_compares(model, *var, *rel, *op, bound, binding)
        }
    }
}

// Whether a literal is true: `literal`, as a part of a loop.
#[inline(always)]
fn literal_holds(model: &Model, literal: &Literal, binding: &Binding) -> bool
    requires { model.now.ordered ≡ true }
    ensures { IsTrue result ↔ LiteralHolds (IsInModel model.now) binding.now literal.now }
{
    atom_holds(model, &literal.atom, binding) != literal.negated
}

/// Whether a literal is true in a model. That it is only tested has no influence.
pub fn literal(model: &Model, literal: &Literal, binding: &Binding) -> bool
    requires { model.now.ordered ≡ true }
    ensures { IsTrue result ↔ LiteralHolds (IsInModel model.now) binding.now literal.now }
{
    literal_holds(model, literal, binding)
}

// Whether all literals of a conjunction are true.
#[inline]
fn conj_holds(model: &Model, conj: &Conj, binding: &Binding) -> bool
    requires { model.now.ordered ≡ true }
    ensures { IsTrue result ↔ ConjHolds (IsInModel model.now) binding.now conj.now }
{
    for item in conj.literals.items() {
        if !literal(model, item, binding) {
            return false;
        }
    }
    true
}

// Whether some conjunction of a constraint has all its literals true.
pub fn is_satisfied(model: &Model, constraint: &Constraint, binding: &Binding) -> bool
    requires { model.now.ordered ≡ true }
    ensures { MatchBool result (IsSatisfied (IsInModel model.now) binding.now constraint.now)
        (IsUnsatisfied (IsInModel model.now) binding.now constraint.now) }
{
    for conj in constraint.conjs.items() {
        if conj_holds(model, conj, binding) {
            return true;
        }
    }
    false
}

// The literal of a conjunction that has no other one.
fn only_in(literals: &[Literal]) -> Option<Literal>
    ensures { result ≡ said.only_in literals.now }
{
    match literals {
        [literal] => Some(*literal),
        _ => None,
    }
}

// The literal of a constraint that has no other one.
pub fn only_literal(constraint: &Constraint) -> Option<Literal>
    ensures { result ≡ said.only_literal constraint.now }
{
    match constraint.conjs.items() {
        [conj] => only_in(conj.literals.items()),
        _ => None,
    }
}

// The relation whose sources a measure counts for the second variable.
#[inline(always)]
fn sources_of_second(measure: Measure) -> Option<u32>
    ensures { IfSome result (λ rel. measure ≡ measures.Into rel vars.Second) }
{
    match measure {
        Measure::Into(rel, Var::Second) => Some(rel),
        _ => None,
    }
}

// Whether how many sources the second variable has meets the comparison, whatever its record is:
// where no target has too many.
fn sources_compare(model: &Model, measure: Measure, op: Op, number: u64) -> bool
    requires { model.now.ordered ≡ true }
    ensures { IsTrue result → (x : elements.Element) (y : elements.Element)
        → AtomHolds (IsInModel model.now) (bindings.Pair x y) (atoms.Count measure op number) }
{
    let Some(rel) = sources_of_second(measure) else {
        return false;
    };
    let Some(most) = model.most_sources(rel) else {
        return false;
    };
    match op {
        Op::Lt | Op::Le => compares(op, most, number),
        Op::Eq | Op::Ne | Op::Gt | Op::Ge => false,
    }
}

// Whether the only literal of a constraint over pairs is true for any two records, as it can be
// told without a look at them.
pub fn holds_for_pairs(model: &Model, only: Option<Literal>) -> bool
    requires { model.now.ordered ≡ true }
    ensures { IsTrue result → HoldsForPairs (IsInModel model.now) only }
{
    let Some(alone) = only else {
        return false;
    };
    if alone.negated {
        return false;
    }
    match alone.atom {
        Atom::Count(measure, op, number) => sources_compare(model, measure, op, number),
        Atom::Member(_, _) | Atom::Pair(_, _, _) | Atom::Value(_, _, _, _) => false,
    }
}

// An atom that compares how many sources the second variable has: the same one, written out, so
// that a loop is made for its kind.
#[inline(always)]
fn sources_atom(atom: Atom) -> Option<Atom>
    ensures { IfSome result (λ same. atom ≡ same) }
{
    match atom {
        Atom::Count(measure, op, size) => {
            let rel = sources_of_second(measure)?;
            Some(Atom::Count(Measure::Into(rel, Var::Second), op, size))
        }
        _ => None,
    }
}

// The literal that such an atom is alone, written out.
#[inline(always)]
pub fn sources_literal(only: Option<Literal>) -> Option<Literal>
    ensures { IfSome result (λ same. only ≡ Some same) }
{
    let literal = only?;
    if literal.negated {
        return None;
    }
    Some(Literal {
        atom: sources_atom(literal.atom)?,
        negated: false,
        given: literal.given,
    })
}

// As `is_satisfied`, at once where the only literal of the constraint, if it has but one, is known.
#[inline(always)]
pub fn is_met(
    model: &Model,
    constraint: &Constraint,
    only: Option<Literal>,
    binding: &Binding,
) -> bool
    requires ordered { model.now.ordered ≡ true }
    requires only { only ≡ said.only_literal constraint.now }
    ensures { MatchBool result (IsSatisfied (IsInModel model.now) binding.now constraint.now)
        (IsUnsatisfied (IsInModel model.now) binding.now constraint.now) }
{
    match only {
        Some(alone) => literal_holds(model, &alone, binding),
        None => is_satisfied(model, constraint, binding),
    }
}

/// Whether a binding of a constraint, by its number, satisfies it: some conjunction has all its
/// literals true.
pub fn holds(model: &Model, spec: &Spec, constraint: u32, binding: &Binding) -> bool
    requires ordered { model.now.ordered ≡ true }
    requires declared { IsSome (slice_get spec.now.constraints constraint) }
    ensures satisfied { IsTrue result ↔ IsSomeAnd (slice_get spec.now.constraints constraint)
        (IsSatisfied (IsInModel model.now) binding.now) }
    ensures unsatisfied { IsFalse result ↔ IsSomeAnd (slice_get spec.now.constraints constraint)
        (IsUnsatisfied (IsInModel model.now) binding.now) }
{
    is_satisfied(
        model,
        &spec.constraints.items()[constraint as usize],
        binding,
    )
}
