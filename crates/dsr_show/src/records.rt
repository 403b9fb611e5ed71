// Records by their fields.
use crate::images::ImageModel;
use crate::names::push_element;
use crate::pairs::{gives_any, push_given};
use crate::values::{field_value, is_member};
use dsr_answers::pool_name;
use dsr_ir::{Element, Field, FieldRef, Kind, Rel, Structure};
use dsr_layout::{field_place, pool_numbers};
use dsr_schema::pool_at;
use dsr_wording::{Text, numbered};

// How many entries of an array are shown.
const ENTRIES: u64 = 16;

// How many structures stand above one at most.
const MOST_PARENTS: u32 = 64;

/// The structure by which a record is read: that of the head or of the record's pool.
pub fn record_structure(image: &ImageModel<'_>, elem: Element) -> u32 {
    match pool_at(&image.spec.base, elem.pool) {
        Some(pool) => pool.structure,
        None => image.spec.base.head,
    }
}

// Whether a reference with this value leads to a slot, and to which one; none where it is none or
// illegal.
fn slot_meant(image: &ImageModel<'_>, pool: u32, value: u64) -> Option<u64> {
    let numbers = pool_numbers(&image.layout, pool)?;
    let distance = value.checked_sub(numbers.code)?;
    let slot = distance.checked_div(numbers.step)?;
    if distance.checked_rem(numbers.step)? == 0 && slot < numbers.count {
        Some(slot)
    } else {
        None
    }
}

// Whether a value is the code of no slot.
fn is_none(image: &ImageModel<'_>, pool: u32, value: u64) -> bool {
    match pool_numbers(&image.layout, pool) {
        Some(numbers) => numbers.none == value,
        None => false,
    }
}

// Appends a slot of a pool.
fn push_slot(text: &mut Text, pool: &[u8], slot: u64) {
    text.name(pool);
    text.push("[");
    text.number(slot);
    text.push("]");
}

// Appends what the value of a reference means.
fn push_reference(text: &mut Text, image: &ImageModel<'_>, pool: u32, value: u64) {
    if is_none(image, pool, value) {
        text.push("none");
        return;
    }
    match slot_meant(image, pool, value) {
        Some(slot) => push_slot(text, pool_name(image.spec, pool), slot),
        None => {
            text.push("illegal ");
            text.number(value);
        }
    }
}

// Appends one value of a field.
fn push_value(text: &mut Text, image: &ImageModel<'_>, kind: Kind, value: Option<u64>) {
    let Some(value) = value else {
        text.push("?");
        return;
    };
    match kind {
        Kind::Refers { pool } => push_reference(text, image, pool, value),
        _ => text.number(value),
    }
}

// Appends the entries of an array, the first ones where there are many.
fn push_entries(
    text: &mut Text,
    image: &ImageModel<'_>,
    elem: Element,
    field: FieldRef,
    kind: Kind,
    count: u64,
) {
    for index in 0..count.min(ENTRIES) {
        text.push(if index == 0 { "" } else { " " });
        push_value(text, image, kind, field_value(image, elem, field, index));
    }
    if count > ENTRIES {
        text.push(" .. (");
        text.number(count);
        text.push(" entries)");
    }
}

// How many entries a field has, if it is an array.
fn length_of(image: &ImageModel<'_>, number: FieldRef) -> Option<u64> {
    match field_place(&image.layout, number) {
        Some(place) => place.length,
        None => None,
    }
}

// Appends what a field of a record holds.
fn push_content(
    text: &mut Text,
    image: &ImageModel<'_>,
    elem: Element,
    number: FieldRef,
    kind: Kind,
) {
    match length_of(image, number) {
        Some(count) => push_entries(text, image, elem, number, kind, count),
        None => push_value(text, image, kind, field_value(image, elem, number, 0)),
    }
}

// Appends a field of a record with its value.
fn push_field(
    text: &mut Text,
    image: &ImageModel<'_>,
    elem: Element,
    number: FieldRef,
    field: &Field,
) {
    text.fill("  {}: ", &[field.name.bytes()]);
    push_content(text, image, elem, number, field.kind);
    text.push("\n");
}

// Appends the fields that a structure declares, as a record has them.
fn push_own_fields(
    text: &mut Text,
    image: &ImageModel<'_>,
    elem: Element,
    number: u32,
    structure: &Structure,
) {
    for (place, field) in structure.fields.items().iter().enumerate() {
        if matches!(field.kind, Kind::Gap) {
            continue;
        }
        let which = FieldRef {
            structure: number,
            field: numbered(place),
        };
        push_field(text, image, elem, which, field);
    }
}

// Appends the fields of a structure and of those above it, the nearest ones first.
fn push_fields(text: &mut Text, image: &ImageModel<'_>, elem: Element, number: u32) {
    let mut next = Some(number);
    for _turn in 0..MOST_PARENTS {
        let Some(number) = next else {
            return;
        };
        let Some(structure) = image.spec.base.structures.items().get(number as usize) else {
            return;
        };
        push_own_fields(text, image, elem, number, structure);
        next = structure.parent;
    }
}

// Appends the sets of which a record is a member.
fn push_sets(text: &mut Text, image: &ImageModel<'_>, elem: Element) {
    let mut is_first = true;
    for (number, set) in image.spec.base.sets.items().iter().enumerate() {
        if set.pool != elem.pool || !is_member(image, numbered(number), elem) {
            continue;
        }
        text.push(if is_first { "  in " } else { ", " });
        text.name(set.name.bytes());
        is_first = false;
    }
    if !is_first {
        text.push("\n");
    }
}

// Appends what a relation gives to a record, as a line.
fn push_row(text: &mut Text, image: &ImageModel<'_>, elem: Element, number: u32, rel: &Rel) {
    text.fill("  {}: ", &[rel.name.bytes()]);
    let _listed = push_given(text, image, number, rel, elem);
    text.push("\n");
}

// Appends the pairs whose first part a record is.
fn push_pairs(text: &mut Text, image: &ImageModel<'_>, elem: Element) {
    for (number, rel) in image.spec.base.rels.items().iter().enumerate() {
        let number = numbered(number);
        if rel.source == elem.pool && gives_any(image, number, rel, elem) {
            push_row(text, image, elem, number, rel);
        }
    }
}

/// Appends a record: its fields with their values, the sets in which it is, and its pairs.
pub fn push_record(text: &mut Text, image: &ImageModel<'_>, elem: Element) {
    push_element(text, image.spec, elem);
    text.push("\n");
    push_fields(text, image, elem, record_structure(image, elem));
    push_sets(text, image, elem);
    push_pairs(text, image, elem);
}
