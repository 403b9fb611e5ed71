// Records that are listed.
use crate::images::ImageModel;
use crate::names::{push_element, push_set_name};
use crate::values::{is_member, is_pair};
use dsr_ir::{Binding, Element, Measure, Spec};
use dsr_layout::{record_count, set_pool};
use dsr_wording::{Text, numbered};

/// How many are listed at most.
pub const MOST: u64 = 10;

/// Which records of a pool are listed.
#[derive(Clone, Copy)]
pub enum Which {
    /// The members of a set.
    Members(u32),
    /// Those to which a relation leads from a record.
    Targets(u32, Element),
    /// Those from which a relation leads to a record.
    Sources(u32, Element),
}

// Whether a record is one of those that are listed.
fn is_listed(image: &ImageModel<'_>, which: Which, elem: Element) -> bool {
    match which {
        Which::Members(set) => is_member(image, set, elem),
        Which::Targets(rel, source) => is_pair(image, rel, source, elem),
        Which::Sources(rel, target) => is_pair(image, rel, elem, target),
    }
}

// How many slots of a pool are looked at.
fn slots_of(image: &ImageModel<'_>, pool: u32) -> u32 {
    u32::try_from(record_count(&image.layout, pool)).unwrap_or(u32::MAX)
}

/// Whether there is any record to be listed.
pub fn lists_any(image: &ImageModel<'_>, which: Which, pool: u32) -> bool {
    for slot in 0..slots_of(image, pool) {
        if is_listed(image, which, Element { pool, slot }) {
            return true;
        }
    }
    false
}

// Appends a record of a list, of which so many stand before it.
fn push_listed(text: &mut Text, spec: &Spec, elem: Element, before: u64) {
    if before > 0 {
        text.push(", ");
    }
    push_element(text, spec, elem);
}

/// Appends records of a pool, and tells how many; only the first ones where there are many.
pub fn push_records(text: &mut Text, image: &ImageModel<'_>, which: Which, pool: u32) -> u64 {
    let mut listed = 0u64;
    for slot in 0..slots_of(image, pool) {
        let elem = Element { pool, slot };
        if !is_listed(image, which, elem) {
            continue;
        }
        if listed == MOST {
            text.push(", ..");
            return listed;
        }
        push_listed(text, image.spec, elem, listed);
        listed = listed.saturating_add(1);
    }
    listed
}

/// Appends the members of a set, the first ones where there are many.
pub fn push_members(text: &mut Text, image: &ImageModel<'_>, set: u32) {
    let _listed = push_records(text, image, Which::Members(set), set_pool(image.spec, set));
}

/// How many members a set has.
pub fn member_count(image: &ImageModel<'_>, set: u32) -> u64 {
    image.model.size(&Measure::Whole(set), &Binding::Once)
}

// Appends that a set has so many members.
fn push_member_count(text: &mut Text, spec: &Spec, set: u32, count: u64) {
    text.push("set ");
    push_set_name(text, spec, set);
    text.push(": ");
    text.number(count);
    text.push(" members");
}

/// Appends a set with its members.
pub fn push_set(text: &mut Text, image: &ImageModel<'_>, set: u32) {
    let count = member_count(image, set);
    push_member_count(text, image.spec, set, count);
    if count > 0 {
        text.push(": ");
        push_members(text, image, set);
    }
    text.push("\n");
}

// Appends that a pool has so many slots.
fn push_slot_count(text: &mut Text, name: &[u8], count: u64) {
    text.fill("pool {}: ", &[name]);
    text.number(count);
    text.push(" slots\n");
}

// Appends the pools with their slots.
fn push_pools(text: &mut Text, image: &ImageModel<'_>) {
    for (number, pool) in image.spec.base.pools.items().iter().enumerate() {
        let count = record_count(&image.layout, numbered(number).saturating_add(1));
        push_slot_count(text, pool.name.bytes(), count);
    }
}

/// Appends what pools and sets an image has.
pub fn push_summary(text: &mut Text, image: &ImageModel<'_>) {
    text.push("image of ");
    text.number(image.bytes.len() as u64);
    text.push(" bytes\n");
    push_pools(text, image);
    for (number, _set) in image.spec.base.sets.items().iter().enumerate() {
        push_set(text, image, numbered(number));
    }
}
