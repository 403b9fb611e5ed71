// The pairs of relations.
use crate::facts::fact_after;
use crate::images::ImageModel;
use crate::listing::{MOST, Which, lists_any, push_records};
use crate::names::{push_element, push_rel_name};
use crate::values::value_after;
use dsr_ir::{Element, Fact, Rel, Symbol, Target};
use dsr_wording::Text;

/// Appends the numbers that a relation gives to a record, and tells how many; only the first ones
/// where there are many.
pub fn push_numbers(text: &mut Text, image: &ImageModel<'_>, rel: u32, source: Element) -> u64 {
    let mut from = 0u64;
    let mut listed = 0u64;
    for _turn in 0..MOST {
        let Some(value) = value_after(image, rel, source, from) else {
            return listed;
        };
        text.push(if listed > 0 { ", " } else { "" });
        text.number(value);
        listed = listed.saturating_add(1);
        let Some(next) = value.checked_add(1) else {
            return listed;
        };
        from = next;
    }
    if value_after(image, rel, source, from).is_some() {
        text.push(", ..");
    }
    listed
}

/// Appends what a relation gives to a record, be it numbers or records, and tells how many.
pub fn push_given(
    text: &mut Text,
    image: &ImageModel<'_>,
    rel: u32,
    declared: &Rel,
    source: Element,
) -> u64 {
    match declared.target {
        Some(pool) => push_records(text, image, Which::Targets(rel, source), pool),
        None => push_numbers(text, image, rel, source),
    }
}

/// Whether a relation gives anything to a record.
pub fn gives_any(image: &ImageModel<'_>, rel: u32, declared: &Rel, source: Element) -> bool {
    match declared.target {
        Some(pool) => lists_any(image, Which::Targets(rel, source), pool),
        None => value_after(image, rel, source, 0).is_some(),
    }
}

// How many pairs are listed.
const LISTED: usize = 1000;

// Appends the second part of a pair.
fn push_target(text: &mut Text, image: &ImageModel<'_>, target: Target) {
    match target {
        Target::Elem(elem) => push_element(text, image.spec, elem),
        Target::Num(number) => text.number(number),
    }
}

// Appends a pair as a line.
fn push_pair(text: &mut Text, image: &ImageModel<'_>, fact: Fact) {
    let Fact::Pair(_, source, target) = fact else {
        return;
    };
    text.push("  ");
    push_element(text, image.spec, source);
    text.push(" -> ");
    push_target(text, image, target);
    text.push("\n");
}

/// Appends a relation with its pairs, a line each, the first ones where there are many.
pub fn push_relation(text: &mut Text, image: &ImageModel<'_>, rel: u32) {
    let symbol = Symbol::Rel(rel);
    text.push("relation ");
    push_rel_name(text, image.spec, rel);
    text.push("\n");
    let mut last = None;
    for _turn in 0..LISTED {
        let Some(fact) = fact_after(image, symbol, last) else {
            return;
        };
        push_pair(text, image, fact);
        last = Some(fact);
    }
    if fact_after(image, symbol, last).is_some() {
        text.push("  ..\n");
    }
}
