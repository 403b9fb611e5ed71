// Pieces of what is told: numbers, and where things lie.
use crate::scenes::Scene;
use dsr_answers::pool_name;
use dsr_wording::Text;

/// Appends a number, or that it isn't known.
pub fn push_known(text: &mut Text, number: Option<u64>) {
    match number {
        Some(number) => text.grouped(number),
        None => text.push("unknown"),
    }
}

// Appends how many of a thing there are, by the word for one and that for many.
fn push_count(text: &mut Text, number: Option<u64>, one: &str, many: &str) {
    push_known(text, number);
    text.push(" ");
    text.push(if number == Some(1) { one } else { many });
}

/// Appends how many bytes there are.
pub fn push_bytes(text: &mut Text, number: Option<u64>) {
    push_count(text, number, "byte", "bytes");
}

/// Appends how many bytes the image has.
pub fn push_length(text: &mut Text, scene: &Scene<'_>) {
    text.push("the image has ");
    push_bytes(text, Some(scene.bytes.len() as u64));
}

/// Appends where a pool lies, or the head, which is numbered 0.
pub fn push_extent(text: &mut Text, scene: &Scene<'_>, pool: u32) {
    let Some(extent) = scene.pool(pool) else {
        text.push("`Head` takes ");
        push_bytes(text, scene.head_bytes());
        text.push(" from byte 0 on");
        return;
    };
    text.fill("pool `{}` has ", &[pool_name(scene.spec, pool)]);
    push_count(text, extent.count, "slot", "slots");
    text.push(" of ");
    push_bytes(text, extent.slot);
    text.push(" from byte ");
    push_known(text, extent.start);
    text.push(" on, and ends at byte ");
    push_known(text, extent.end());
}

// Appends the value of a field of the head.
fn push_value(text: &mut Text, name: &[u8], value: Option<u64>) {
    text.fill("  head.{} is ", &[name]);
    push_known(text, value);
    text.push("\n");
}

/// Appends the fixed fields with their values, which decide where pools lie.
pub fn push_fixed(text: &mut Text, scene: &Scene<'_>) {
    let base = &scene.spec.base;
    let Some(head) = base.structures.items().get(base.head as usize) else {
        return;
    };
    for (number, field) in head.fields.items().iter().enumerate() {
        if field.fixed {
            push_value(text, field.name.bytes(), scene.numbers.fixed_value(number));
        }
    }
}
