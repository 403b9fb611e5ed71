// Calls that nothing else makes, each once: whether they answer as they should, of a specification
// with a pool and two rules, whose first set has two members and whose first relation gives the
// second the number 9.
//
// A line `=== NAME HEX` begins a case, with the bytes of its image; the lines below it are its
// specification's text.
ghost use Rattle.std.specs.Prelude.{◌≡◌, true, IfOk, IfSome};
ghost use Rattle.std.specs.Bool.{OnTrue};
ghost use Rattle.dsr_given.specs.Shapes.{Gives, rule_shapes};
ghost use Rattle.dsr_meaning.specs.Legal.{IsLegalLayout};
ghost use Rattle.dsr_meaning.specs.Typed.{IsTyped};
ghost use Rattle.dsr_model.specs.Sets as said;
ghost use Rattle.dsr_model.specs.Sets.{HasSlot, empty_sets};
ghost use Rattle.dsr_model.specs.Views.{IsLayoutFor, IsOfPairs};

use crate::built_models::model_of;
use crate::bytes::bytes_of;
use crate::headings::{heading_of, name_and_image};
use dsr_given::Given;
use dsr_ir::{Element, Fact, Instance, Layout, NoMemory, Spec, Target};
use dsr_layout::record_count;
use dsr_model::{Members, Model, is_premise};
use dsr_related::Relation;
use dsr_spec::specification;
use dsr_test_text::Lines;
use std::alloc::Global;

// The pair with a number that an instance gives, if any.
fn given_number(model: &Model, instance: &Instance) -> Option<Fact>
    ensures gives { IfSome result (Gives model.now.given.rules instance.now) }
    ensures pairs { IfSome result (λ _. IsOfPairs model.now.given.rules instance.now) }
{
    let fact = model.fact(instance)?;
    match fact {
        Fact::Pair(_, _, Target::Num(_)) => Some(fact),
        _ => None,
    }
}

// The pairs of the first relation where this instance alone gives something.
fn collected(
    alloc: Global,
    spec: &Spec,
    layout: &Layout,
    instance: &Instance,
    fact: &Fact,
) -> Result<Relation, NoMemory>
    requires typed { IsTyped spec.now }
    requires layout { IsLayoutFor spec.now layout.now }
    requires gives { Gives (rule_shapes spec.now layout.now) instance.now fact.now }
    ensures { IfOk result (λ relation. relation.pairs.ordered ≡ true) }
{
    let mut given = Given::new(alloc, spec, layout)?;
    given.set(instance, fact);
    let mut relation = Relation::new(alloc, given.places(0) as usize, 0)?;
    given.collect(0, &mut relation);
    relation.finish();
    Ok(relation)
}

// Whether a slot may become a member of a set.
fn has_slot(spec: &Spec, layout: &Layout, set: u32, slot: u32) -> bool
    ensures { OnTrue result (HasSlot (empty_sets spec.now layout.now) set slot) }
{
    match spec.base.sets.items().get(set as usize) {
        Some(decl) => decl.except.is_none() && u64::from(slot) < record_count(layout, decl.pool),
        None => false,
    }
}

// Whether something waits once a slot alone is a member of a set, which has to be a premise for that.
fn waits_alone(
    alloc: Global,
    spec: &Spec,
    layout: &Layout,
    set: u32,
    slot: u32,
    waits: bool,
) -> Result<bool, NoMemory>
    requires typed { IsTyped spec.now }
    requires legal { IsLegalLayout layout.now }
    requires slot { HasSlot (empty_sets spec.now layout.now) set slot }
    requires premise { waits ≡ true → said.is_premise spec.now.rules set ≡ true }
{
    let mut members = Members::new(alloc, spec, layout)?;
    members.add(set, slot, waits);
    Ok(members.take().is_some())
}

// Whether an element is a member of a set, asked in both ways.
fn is_member(members: &Members, set: u32, elem: Element) -> bool {
    members.has_element(set, elem) && members.has(set, elem.slot)
}

// Whether (1, 9) is one of the pairs, as (1, 7) isn't, nor any of 0.
fn has_pair(relation: &Relation) -> bool
    requires { relation.now.pairs.ordered ≡ true }
{
    relation.has(1, 9) && !relation.has(1, 7) && relation.targets_of(0) == 0
}

// Whether the pair of the instance is collected, and no other.
fn is_collected(
    alloc: Global,
    spec: &Spec,
    layout: &Layout,
    instance: &Instance,
    fact: &Fact,
) -> bool
    requires typed { IsTyped spec.now }
    requires layout { IsLayoutFor spec.now layout.now }
    requires gives { Gives (rule_shapes spec.now layout.now) instance.now fact.now }
{
    match collected(alloc, spec, layout, instance, fact) {
        Ok(relation) => has_pair(&relation),
        Err(_) => false,
    }
}

// Whether the model has a fact until the instance that gives it is forgotten.
fn is_forgotten(model: &mut Model, instance: &Instance, fact: &Fact) -> bool
    requires ordered { model.old.ordered ≡ true }
    requires pairs { IsOfPairs model.old.given.rules instance.now }
{
    if !model.has(fact) {
        return false;
    }
    model.forget(instance);
    model.order();
    model.fact(instance).is_none() && !model.has(fact)
}

// Whether a pair is given, collected and forgotten, and its record is a member, as the head isn't.
fn are_pairs_right(alloc: Global, spec: &Spec, layout: &Layout, model: &mut Model) -> bool
    requires typed { IsTyped spec.now }
    requires layout { IsLayoutFor spec.now layout.now }
    requires rules { model.old.given.rules ≡ rule_shapes spec.now layout.now }
    requires ordered { model.old.ordered ≡ true }
{
    let elem = Element { pool: 1, slot: 1 };
    let head = Element { pool: 0, slot: 0 };
    let instance = Instance {
        rule: 1,
        elem,
        index: 0,
    };
    let Some(fact) = given_number(model, &instance) else {
        return false;
    };
    fact == Fact::Pair(0, elem, Target::Num(9))
        && is_collected(alloc, spec, layout, &instance, &fact)
        && is_member(model.members(), 0, elem)
        && !is_member(model.members(), 0, head)
        && is_forgotten(model, &instance, &fact)
}

// Whether a member waits exactly where it is to.
fn is_waiting_right(alloc: Global, spec: &Spec, layout: &Layout) -> bool
    requires typed { IsTyped spec.now }
    requires legal { IsLegalLayout layout.now }
{
    if !has_slot(spec, layout, 0, 1) {
        return false;
    }
    let asked = waits_alone(alloc, spec, layout, 0, 1, is_premise(spec, 0));
    let unasked = waits_alone(alloc, spec, layout, 0, 1, false);
    asked.unwrap_or(false) && !unasked.unwrap_or(true)
}

fn add_answer(lines: &mut Lines, word: &str, is: bool) {
    lines.word(word);
    lines.word(if is { "+" } else { "-" });
}

fn add_answers(lines: &mut Lines, alloc: Global, spec: &Spec, layout: &Layout, model: &mut Model)
    requires typed { IsTyped spec.now }
    requires layout { IsLayoutFor spec.now layout.now }
    requires legal { IsLegalLayout layout.now }
    requires rules { model.old.given.rules ≡ rule_shapes spec.now layout.now }
    requires ordered { model.old.ordered ≡ true }
{
    let is_waiting = is_waiting_right(alloc, spec, layout);
    add_answer(lines, " waiting", is_waiting);
    let are_pairs = are_pairs_right(alloc, spec, layout, model);
    add_answer(lines, " pairs", are_pairs);
}

fn add_calls(lines: &mut Lines, alloc: Global, spec: &Spec, image: Vec<u8>)
    requires { IsTyped spec.now }
{
    match model_of(alloc, spec, image) {
        Some(mut found) => {
            add_answers(lines, alloc, spec, &found.layout, &mut found.model);
        }
        None => lines.word(" has no model"),
    }
}

fn add_case(lines: &mut Lines, alloc: Global, case: &str) -> anyhow::Result<()> {
    let (heading, text) = heading_of(case)?;
    let (name, digits) = name_and_image(heading)?;
    let image = bytes_of(alloc, digits)?;
    lines.word(name);
    match specification(alloc, text.as_bytes()) {
        Ok(Some(spec)) => add_calls(lines, alloc, &spec, image),
        Ok(None) | Err(_) => lines.word(" has no specification"),
    }
    lines.word("\n");
    Ok(())
}

/// The answers to the cases of a section.
pub fn add_cases(lines: &mut Lines, alloc: Global, section: &str) -> anyhow::Result<()> {
    for case in section.split("=== ").skip(1) {
        add_case(lines, alloc, case)?;
    }
    Ok(())
}
