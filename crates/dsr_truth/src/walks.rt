// The bindings of a quantifier, least first.
ghost use Rattle.std.specs.Prelude.{◌≡◌, ◌<◌, ◌↔◌, None, Some, true, IfSome, IsTrue, option_map};
ghost use Rattle.dsr_ir.specs.declared.constraints.Quant.TheVariants as quants;
ghost use Rattle.dsr_ir.specs.declared.tuples.Fact.TheVariants as facts;
ghost use Rattle.dsr_ir.specs.declared.tuples.Target.TheVariants.{Elem};
ghost use Rattle.dsr_meaning.specs.Consistency.{IsBinding};
ghost use Rattle.dsr_model.specs.Facts.{IsInModel};
ghost use Rattle.dsr_truth.specs.Walks.{FindsLeastBinding, IsLaterBinding, MayBind, bindings_after, each, pair};

use dsr_ir::{Binding, Element, Fact, Quant, Target};
use dsr_model::Model;

// The fact that an element is a member of a set.
#[inline(always)]
fn member_fact(set: u32, elem: Option<Element>) -> Option<Fact>
    ensures { result ≡ option_map (λ e. facts.Member set e) elem }
{
    match elem {
        Some(elem) => Some(Fact::Member(set, elem)),
        None => None,
    }
}

// The fact that a pair of records is in a relation.
#[inline(always)]
fn pair_fact(rel: u32, pair: Option<(Element, Element)>) -> Option<Fact>
    ensures { result ≡ option_map (λ p. facts.Pair rel p.0 (Elem p.1)) pair }
{
    match pair {
        Some((source, target)) => Some(Fact::Pair(rel, source, Target::Elem(target))),
        None => None,
    }
}

// The next member of a set.
#[inline(always)]
fn next_each(model: &Model, set: u32, before: Option<Element>) -> Option<Binding>
    requires ordered { model.now.ordered ≡ true }
    requires kind { IfSome before (λ e. MayBind model.now (quants.Each set) (each e)) }
    ensures next { FindsLeastBinding
        (IsLaterBinding (IsInModel model.now) (quants.Each set) (option_map each before)) result }
    ensures kind { IfSome result (MayBind model.now (quants.Each set)) }
    ensures fewer { IfSome result (λ next. bindings_after model.now (quants.Each set) (Some next)
        < bindings_after model.now (quants.Each set) (option_map each before)) }
{
    let last = member_fact(set, before);
    let next = model.member_after(set, last)?;
    match next {
        Fact::Member(_, elem) => Some(Binding::Each(elem)),
        Fact::Pair(_, _, _) => None,
    }
}

// The next pair of records of a relation.
#[inline(always)]
fn next_pair(
    model: &Model,
    rel: u32,
    before: Option<(Element, Element)>,
    near: usize,
) -> Option<Binding>
    requires ordered { model.now.ordered ≡ true }
    requires kind { IfSome before (λ p. MayBind model.now (quants.Pairs rel) (pair p)) }
    ensures next { FindsLeastBinding
        (IsLaterBinding (IsInModel model.now) (quants.Pairs rel) (option_map pair before)) result }
    ensures kind { IfSome result (MayBind model.now (quants.Pairs rel)) }
    ensures fewer { IfSome result (λ next. bindings_after model.now (quants.Pairs rel) (Some next)
        < bindings_after model.now (quants.Pairs rel) (option_map pair before)) }
{
    let last = pair_fact(rel, before);
    let next = model.pair_after(rel, last, near)?;
    match next {
        Fact::Pair(_, source, target) => match target {
            Target::Elem(target) => Some(Binding::Pair(source, target)),
            Target::Num(_) => None,
        },
        Fact::Member(_, _) => None,
    }
}

// The least binding of a quantifier.
#[inline(always)]
fn first_binding(model: &Model, quant: Quant) -> Option<Binding>
    requires ordered { model.now.ordered ≡ true }
    ensures next { FindsLeastBinding (IsLaterBinding (IsInModel model.now) quant None) result }
    ensures kind { IfSome result (MayBind model.now quant) }
    ensures fewer { IfSome result (λ next.
        bindings_after model.now quant (Some next) < bindings_after model.now quant None) }
{
    match quant {
        Quant::Once => Some(Binding::Once),
        Quant::Each(set) => next_each(model, set, None),
        Quant::Pairs(rel) => next_pair(model, rel, None, 0),
    }
}

// The least binding of a quantifier that comes after another one.
#[inline(always)]
fn later_binding(model: &Model, quant: Quant, last: Binding, near: usize) -> Option<Binding>
    requires ordered { model.now.ordered ≡ true }
    requires kind { MayBind model.now quant last }
    ensures next { FindsLeastBinding (IsLaterBinding (IsInModel model.now) quant (Some last)) result }
    ensures kind { IfSome result (MayBind model.now quant) }
    ensures fewer { IfSome result (λ next.
        bindings_after model.now quant (Some next) < bindings_after model.now quant (Some last)) }
{
    match (quant, last) {
        (Quant::Each(set), Binding::Each(elem)) => next_each(model, set, Some(elem)),
        (Quant::Pairs(rel), Binding::Pair(source, target)) => {
            next_pair(model, rel, Some((source, target)), near)
        }
        _ => None,
    }
}

/// The least binding of a quantifier that comes after another one, or the least of all, found at
/// once where the other one has the number `near` among all bindings.
#[inline(always)]
pub fn next_binding(
    model: &Model,
    quant: Quant,
    before: Option<Binding>,
    near: usize,
) -> Option<Binding>
    requires ordered { model.now.ordered ≡ true }
    requires kind { IfSome before (MayBind model.now quant) }
    ensures next { FindsLeastBinding (IsLaterBinding (IsInModel model.now) quant before) result }
    ensures kind { IfSome result (MayBind model.now quant) }
    ensures fewer { IfSome result (λ next.
        bindings_after model.now quant (Some next) < bindings_after model.now quant before) }
{
    match before {
        None => first_binding(model, quant),
        Some(last) => later_binding(model, quant, last, near),
    }
}

/// Whether a binding is one of a quantifier in the model.
pub fn is_binding(model: &Model, quant: Quant, binding: &Binding) -> bool
    requires { model.now.ordered ≡ true }
    ensures { IsTrue result ↔ IsBinding (IsInModel model.now) quant binding.now }
{
    match (quant, *binding) {
        (Quant::Once, Binding::Once) => true,
        (Quant::Each(set), Binding::Each(elem)) => model.has(&Fact::Member(set, elem)),
        (Quant::Pairs(rel), Binding::Pair(source, target)) => {
            model.has(&Fact::Pair(rel, source, Target::Elem(target)))
        }
        _ => false,
    }
}
