// What look-ups in a model that is in order tell, in words.
ghost use Rattle.std.specs.Prelude.{◌≡◌, true, IfSome};
ghost use Rattle.dsr_meaning.specs.Truth.{HasVariable};
ghost use Rattle.dsr_model.specs.Facts.{MayBeOf};

use crate::models::tuples::{add_element, add_target};
use dsr_ir::{Binding, Element, Fact, Measure, Spec, Symbol, Target, Var};
use dsr_model::Model;
use dsr_test_text::Lines;

// How many members, targets or sources there are, and the greatest of them.
fn add_size(lines: &mut Lines, model: &Model, measure: Measure, binding: Binding)
    requires ordered { model.now.ordered ≡ true }
    requires variable { HasVariable binding measure }
{
    lines.part(" ", model.size(&measure, &binding));
    let Some(fact) = model.greatest(&measure, &binding) else {
        return;
    };
    lines.word(" to");
    match (fact, measure) {
        (Fact::Member(_, elem), _) | (Fact::Pair(_, elem, _), Measure::Into(_, _)) => {
            add_element(lines, elem);
        }
        (Fact::Pair(_, _, target), _) => add_target(lines, target),
    }
}

// The numbers that a source has, of which there are so many at most.
fn add_values(lines: &mut Lines, model: &Model, rel: u32, source: Element, most: u64)
    requires { model.now.ordered ≡ true }
{
    let mut from = 0;
    for turn in 0..most {
        let Some(value) = model.next_value(rel, source, from) else {
            return;
        };
        lines.part(if turn == 0 { " by " } else { " " }, value);
        from = value.saturating_add(1);
    }
}

// A source, with how many targets it has.
fn add_source(lines: &mut Lines, model: &Model, rel: u32, source: Element)
    requires { model.now.ordered ≡ true }
{
    let measure = Measure::Out(Var::First, rel);
    let binding = Binding::Each(source);
    lines.word("\n   ");
    add_element(lines, source);
    add_size(lines, model, measure, binding);
    add_values(lines, model, rel, source, model.size(&measure, &binding));
    lines.word(":");
}

fn next_slot(elem: Element) -> Element {
    Element {
        pool: elem.pool,
        slot: elem.slot.wrapping_add(1),
    }
}

// The fact with the next slot or number, which the model mostly hasn't got.
fn beside(fact: Fact) -> Fact {
    match fact {
        Fact::Member(set, elem) => Fact::Member(set, next_slot(elem)),
        Fact::Pair(rel, source, Target::Elem(elem)) => {
            Fact::Pair(rel, source, Target::Elem(next_slot(elem)))
        }
        Fact::Pair(rel, source, Target::Num(number)) => {
            Fact::Pair(rel, source, Target::Num(number.wrapping_add(1)))
        }
    }
}

fn add_answer(lines: &mut Lines, is: bool) {
    lines.word(if is { "+" } else { "-" });
}

// A fact by its member or target, with whether the model has it and the one beside it. A target
// that is a record is followed by the number of its sources.
fn add_found(lines: &mut Lines, model: &Model, fact: Fact)
    requires { model.now.ordered ≡ true }
{
    match fact {
        Fact::Member(_, elem) => add_element(lines, elem),
        Fact::Pair(_, _, target) => add_target(lines, target),
    }
    add_answer(lines, model.has(&fact));
    add_answer(lines, model.has(&beside(fact)));
    if let Fact::Pair(rel, source, Target::Elem(target)) = fact {
        let measure = Measure::Into(rel, Var::Second);
        lines.word(" of");
        add_size(lines, model, measure, Binding::Pair(source, target));
    }
}

fn source_of(fact: Option<Fact>) -> Option<Element> {
    match fact {
        Some(Fact::Pair(_, source, _)) => Some(source),
        _ => None,
    }
}

// What comes after a fact, by the call for symbols of its kind.
fn fact_after(model: &Model, symbol: Symbol, last: Option<Fact>, near: usize) -> Option<Fact>
    requires ordered { model.now.ordered ≡ true }
    requires of_symbol { IfSome last (MayBeOf model.now symbol) }
{
    match symbol {
        Symbol::Set(set) => model.member_after(set, last),
        Symbol::Rel(rel) => model.pair_after(rel, last, near),
    }
}

// All facts of a symbol, least first; of a relation each source on a line of its own.
fn add_walk(lines: &mut Lines, model: &Model, symbol: Symbol)
    requires { model.now.ordered ≡ true }
{
    let mut last = None;
    let mut near = 0;
    while let Some(fact) = model.after(symbol, last) {
        if model.after_near(symbol, last, near) != Some(fact) {
            lines.word(" not found near its place");
        }
        if fact_after(model, symbol, last, near) != Some(fact) {
            lines.word(" not found by its kind");
        }
        if let Fact::Pair(rel, source, _) = fact {
            if source_of(last) != Some(source) {
                add_source(lines, model, rel, source);
            }
        }
        add_found(lines, model, fact);
        if last.is_some() {
            near = near.saturating_add(1);
        }
        last = Some(fact);
    }
}

fn add_set(lines: &mut Lines, model: &Model, set: u32)
    requires { model.now.ordered ≡ true }
{
    lines.part("\n  set ", u64::from(set));
    add_size(lines, model, Measure::Whole(set), Binding::Once);
    lines.word(":");
    if model.next_member(set, 0) != model.after(Symbol::Set(set), None) {
        lines.word(" not found from slot 0");
    }
    add_walk(lines, model, Symbol::Set(set));
}

fn add_relation(lines: &mut Lines, model: &Model, rel: u32)
    requires { model.now.ordered ≡ true }
{
    lines.part("\n  relation ", u64::from(rel));
    lines.word(" head");
    add_size(lines, model, Measure::Out(Var::Head, rel), Binding::Once);
    lines.word(" of");
    add_size(lines, model, Measure::Into(rel, Var::Head), Binding::Once);
    add_walk(lines, model, Symbol::Rel(rel));
}

/// The facts of each set and each relation, with how many there are and the greatest of them.
pub fn add_lookups(lines: &mut Lines, spec: &Spec, model: &Model)
    requires { model.now.ordered ≡ true }
{
    for set in 0..spec.base.sets.items().len() {
        if let Ok(set) = u32::try_from(set) {
            add_set(lines, model, set);
        }
    }
    for rel in 0..spec.base.rels.items().len() {
        if let Ok(rel) = u32::try_from(rel) {
            add_relation(lines, model, rel);
        }
    }
}
