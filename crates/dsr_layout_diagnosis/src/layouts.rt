// Why an image has no layout, in words.
use crate::extents::PoolExtent;
use crate::pushes::{push_bytes, push_extent, push_fixed, push_known, push_length};
use crate::scenes::Scene;
use dsr_answers::{constraint_name, field_name, pool_name};
use dsr_ir::{FieldRef, Spec};
use dsr_layout::LayoutFault;
use dsr_schema::{declared_field, width_bits};
use dsr_wording::{Text, numbered};

// That the image ends before the head does.
fn push_short(text: &mut Text, scene: &Scene<'_>) {
    text.push("the image ends before `Head` does: ");
    push_length(text, scene);
    match scene.head_bytes() {
        Some(size) => {
            text.push(", and `Head` has ");
            text.grouped(size);
        }
        None => text.push(", and a fixed field lies behind them"),
    }
    text.push("\n");
}

// The first expression of a pool that has no value, in words.
fn unknown_part(extent: &PoolExtent) -> Option<&'static str> {
    if extent.start.is_none() {
        return Some("start, behind `at`,");
    }
    if extent.slot.is_none() {
        return Some("size of a slot");
    }
    if extent.count.is_none() {
        return Some("number of slots");
    }
    if extent.code.is_none() {
        return Some("first code");
    }
    if extent.step.is_none() {
        return Some("step");
    }
    if extent.none.is_none() {
        return Some("value of none");
    }
    if extent.end().is_none() {
        return Some("end");
    }
    if extent.count != Some(0) && extent.last_code().is_none() {
        return Some("last code");
    }
    None
}

const NO_NUMBER: &str =
    "isn't a number from 0 to 2^64 - 1: a difference is below 0, a divisor is 0, or a number is too great\n";

// Appends the first structure whose size has no value, and tells whether there is one.
fn push_unknown_structure(text: &mut Text, scene: &Scene<'_>) -> bool {
    for (number, structure) in scene.spec.base.structures.items().iter().enumerate() {
        if scene.numbers.bytes_of(numbered(number)).is_none() {
            text.fill("the size of structure `{}` ", &[structure.name.bytes()]);
            text.push(NO_NUMBER);
            return true;
        }
    }
    false
}

// Appends the first pool that has an expression without a value.
fn push_unknown_pool(text: &mut Text, scene: &Scene<'_>) {
    for pool in scene.spec.base.pools.items() {
        if let Some(part) = unknown_part(&scene.numbers.pool(pool)) {
            text.push("the ");
            text.push(part);
            text.fill(" of pool `{}` ", &[pool.name.bytes()]);
            text.push(NO_NUMBER);
            return;
        }
    }
    text.push("an expression ");
    text.push(NO_NUMBER);
}

// That an expression has no value.
fn push_arith(text: &mut Text, scene: &Scene<'_>) {
    if !push_unknown_structure(text, scene) {
        push_unknown_pool(text, scene);
    }
    push_fixed(text, scene);
}

// That a pool ends behind the image.
fn push_outside(text: &mut Text, scene: &Scene<'_>, pool: u32) {
    push_extent(text, scene, pool);
    text.push("; ");
    push_length(text, scene);
    text.push("\n");
    push_fixed(text, scene);
}

// That two pools share a byte.
fn push_overlap(text: &mut Text, scene: &Scene<'_>, pool: u32, other: u32) {
    push_extent(text, scene, pool);
    text.push("; ");
    push_extent(text, scene, other);
    text.push(": they share bytes\n");
    push_fixed(text, scene);
}

const SLOT: &str = ", and a slot of pool `{}`, which is read by it, has ";

// That a structure is larger than a slot.
fn push_subtype(text: &mut Text, scene: &Scene<'_>, pool: u32, structure: u32) {
    text.fill("structure `{}` has ", &[scene.structure_name(structure)]);
    push_bytes(text, scene.numbers.bytes_of(structure));
    text.fill(SLOT, &[pool_name(scene.spec, pool)]);
    let slot = match scene.pool(pool) {
        Some(extent) => extent.slot,
        None => None,
    };
    push_bytes(text, slot);
    text.push(": give the slots more, by `slot N` in the pool's declaration\n");
}

const ONE_CODE: &str =
    "the step between the codes of pool `{}` is 0, so all its slots would have one code\n";

const NO_BYTES: &str = "a slot of pool `{}` has 0 bytes\n";

// That a slot or a step is 0.
fn push_zero(text: &mut Text, scene: &Scene<'_>, pool: u32) {
    let name = pool_name(scene.spec, pool);
    let step = match scene.pool(pool) {
        Some(extent) => extent.step,
        None => None,
    };
    text.fill(if step == Some(0) { ONE_CODE } else { NO_BYTES }, &[name]);
    push_fixed(text, scene);
}

const IS_CODE: &str = ", which is none of pool `{}`, is the code of a slot: codes go from ";

// That the code of no slot is the code of one.
fn push_none_code(text: &mut Text, scene: &Scene<'_>, pool: u32) {
    let Some(extent) = scene.pool(pool) else {
        return;
    };
    text.push("the value ");
    push_known(text, extent.none);
    text.fill(IS_CODE, &[pool_name(scene.spec, pool)]);
    push_known(text, extent.code);
    text.push(" to ");
    push_known(text, extent.last_code());
    text.push(" in steps of ");
    push_known(text, extent.step);
    text.push("\n");
    push_fixed(text, scene);
}

// Appends a reference with its bits.
fn push_reference(text: &mut Text, scene: &Scene<'_>, structure: u32, field: u32) {
    text.fill("the reference `{}.", &[scene.structure_name(structure)]);
    text.fill("{}` has ", &[field_name(scene.spec, structure, field)]);
    let bits = match declared_field(&scene.spec.base, FieldRef { structure, field }) {
        Some(field) => width_bits(field.width),
        None => 0,
    };
    text.number(bits);
    text.push(" bits");
}

// That a code doesn't fit a reference.
fn push_code(text: &mut Text, scene: &Scene<'_>, pool: u32, structure: u32, field: u32) {
    push_reference(text, scene, structure, field);
    text.fill(
        ", too few for the codes of pool `{}`",
        &[pool_name(scene.spec, pool)],
    );
    if let Some(extent) = scene.pool(pool) {
        text.push(": none is ");
        push_known(text, extent.none);
        if let Some(last) = extent.last_code() {
            text.push(", and the last code is ");
            text.grouped(last);
        }
    }
    text.push("\n");
    push_fixed(text, scene);
}

const GREAT_COUNT: &str =
    "constraint `{}` compares a field with a count that may be greater than the field can hold: widen the field\n";

// That a count doesn't fit a field.
fn push_great_count(text: &mut Text, spec: &Spec, constraint: u32) {
    text.fill(GREAT_COUNT, &[constraint_name(spec, constraint)]);
}

const MANY_INSTANCES: &str =
    "the rules and constraints have too many instances on this image: at most 4,194,304 are allowed in version 1, and 16,777,216 in version 2\n";

// Appends why an image has no layout, by the numbers that are known of it.
fn push_known_fault(text: &mut Text, scene: &Scene<'_>, fault: LayoutFault) {
    match fault {
        LayoutFault::Short => push_short(text, scene),
        LayoutFault::Arith => push_arith(text, scene),
        LayoutFault::Outside(pool) => push_outside(text, scene, pool),
        LayoutFault::Overlap(pool, other) => push_overlap(text, scene, pool, other),
        LayoutFault::Subtype(pool, structure) => push_subtype(text, scene, pool, structure),
        LayoutFault::Zero(pool) => push_zero(text, scene, pool),
        LayoutFault::NoneIsCode(pool) => push_none_code(text, scene, pool),
        LayoutFault::CodeTooWide(pool, structure, field) => {
            push_code(text, scene, pool, structure, field);
        }
        LayoutFault::CountTooWide(constraint) => push_great_count(text, scene.spec, constraint),
        LayoutFault::Instances => text.push(MANY_INSTANCES),
        LayoutFault::NoMemory => text.cut(),
    }
}

/// Appends why the bytes of an image have no layout, in lines.
pub fn push_fault(text: &mut Text, spec: &Spec, bytes: &[u8], fault: LayoutFault) {
    match Scene::new(text.allocator(), spec, bytes) {
        Ok(scene) => push_known_fault(text, &scene, fault),
        Err(_) => text.cut(),
    }
}
