// What instances give, in words.
ghost use Rattle.std.specs.Prelude.{◌≡◌, true, IsSome, slice_get};
ghost use Rattle.dsr_fixpoint.specs.Models.{IsModelOf};
ghost use Rattle.dsr_meaning.specs.Typed.{IsTyped};

use crate::built_models::{Found, model_of};
use crate::models::lookups::add_lookups;
use crate::models::tuples::{add_element, add_fact};
use dsr_fixpoint::deriver;
use dsr_ir::{Element, Fact, Instance, Rule, Spec};
use dsr_layout::{index_count, premise_pool, record_count};
use dsr_model::Members;
use dsr_spec::specification;
use dsr_test_text::Lines;
use std::alloc::Global;

fn add_name(lines: &mut Lines, word: &str, instance: Instance) {
    lines.part(word, u64::from(instance.rule));
    add_element(lines, instance.elem);
    lines.part(" ", instance.index);
}

// What an instance gives, and the first that gives this.
fn add_instance(lines: &mut Lines, found: &Found, instance: Instance) {
    if let Some(fact) = found.model.fact(&instance) {
        add_name(lines, "\n  ", instance);
        add_fact(lines, fact);
        if let Some(first) = found.model.first(&fact) {
            add_name(lines, " by ", first);
        }
    }
}

// How many members a set has, which they are, and the greatest of them.
fn add_members(lines: &mut Lines, members: &Members, set: u32)
    requires { IsSome (slice_get members.now.sets set) }
{
    lines.part("\n  set ", u64::from(set));
    lines.part(" has ", members.count(set));
    let mut from = 0;
    for _ in 0..members.count(set) {
        if let Some(slot) = members.next(set, from) {
            lines.part(" ", u64::from(slot));
            from = u64::from(slot) + 1;
        }
    }
    if let Some(slot) = members.greatest(set) {
        lines.part(" up to ", u64::from(slot));
    }
}

fn add_sets(lines: &mut Lines, members: &Members) {
    for set in 0..members.sets() {
        if let Ok(number) = u32::try_from(set) {
            add_members(lines, members, number);
        }
    }
}

// What a rule gives in a record.
fn add_entries(lines: &mut Lines, found: &Found, rule: u32, elem: Element, entries: u64) {
    for index in 0..entries {
        let instance = Instance { rule, elem, index };
        add_instance(lines, found, instance);
    }
}

fn add_rule(lines: &mut Lines, spec: &Spec, found: &Found, number: u32, rule: &Rule) {
    let pool = premise_pool(spec, rule);
    let entries = index_count(&found.layout, rule.span);
    for slot in 0..record_count(&found.layout, pool) {
        if let Ok(slot) = u32::try_from(slot) {
            add_entries(lines, found, number, Element { pool, slot }, entries);
        }
    }
}

fn add_rules(lines: &mut Lines, spec: &Spec, found: &Found) {
    for (number, rule) in spec.rules.items().iter().enumerate() {
        if let Ok(number) = u32::try_from(number) {
            add_rule(lines, spec, found, number, rule);
        }
    }
}

// The instance by which the first slot is in the first set.
fn add_deriver(lines: &mut Lines, spec: &Spec, found: &Found)
    requires { IsModelOf spec.now found.now.layout found.now.image found.now.model }
{
    let fact = Fact::Member(0, Element { pool: 1, slot: 0 });
    if let Some(first) = deriver(&found.model, spec, &found.layout, &found.image, &fact) {
        add_name(lines, "\n  set 0 1.0 by ", first);
    }
}

fn add_found(lines: &mut Lines, spec: &Spec, found: &Found)
    requires ordered { found.now.model.ordered ≡ true }
    requires model { IsModelOf spec.now found.now.layout found.now.image found.now.model }
{
    add_rules(lines, spec, found);
    add_sets(lines, found.model.members());
    add_lookups(lines, spec, &found.model);
    add_deriver(lines, spec, found);
}

fn add_model(lines: &mut Lines, alloc: Global, spec: &Spec, image: Vec<u8>)
    requires { IsTyped spec.now }
{
    match model_of(alloc, spec, image) {
        Some(found) => add_found(lines, spec, &found),
        None => lines.word(" has no model"),
    }
}

/// All facts of the model of an image, each by the instances that give it.
pub fn add_facts(lines: &mut Lines, alloc: Global, text: &[u8], image: Vec<u8>) {
    match specification(alloc, text) {
        Ok(Some(spec)) => add_model(lines, alloc, &spec, image),
        Ok(None) | Err(_) => lines.word(" has no specification"),
    }
    lines.word("\n");
}
