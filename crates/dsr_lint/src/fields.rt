// What is said of fields.
use crate::uses::{is_followed, is_guarded, is_read};
use dsr_ir::{Field, FieldRef, Kind, Spec, Structure};
use dsr_wording::{Text, numbered};

const UNREAD: &str = ": no rule reads it, so it may hold anything\n";

const UNGUARDED: &str =
    ": no rule asks whether it is illegal; where it is, what lies behind it is no member, and that may be consistent\n";

// Appends a line on a field: what it is, its names, and what is said of it.
fn push_remark(text: &mut Text, what: &str, owner: &[u8], name: &[u8], remark: &str) {
    text.push(what);
    text.name(owner);
    text.push(".");
    text.name(name);
    text.push(remark);
}

// Appends what is to be said of a field.
fn push_field(
    text: &mut Text,
    spec: &Spec,
    structure: &Structure,
    number: FieldRef,
    field: &Field,
) {
    let (owner, name) = (structure.name.bytes(), field.name.bytes());
    if field.fixed || matches!(field.kind, Kind::Gap) {
        return;
    }
    if !is_read(spec, number) {
        push_remark(text, "field ", owner, name, UNREAD);
        return;
    }
    let is_reference = matches!(field.kind, Kind::Refers { pool: _ });
    if is_reference && is_followed(spec, number) && !is_guarded(spec, number) {
        push_remark(text, "reference ", owner, name, UNGUARDED);
    }
}

/// Appends what is to be said of all fields.
pub fn push_fields(text: &mut Text, spec: &Spec) {
    for (number, structure) in spec.base.structures.items().iter().enumerate() {
        for (place, field) in structure.fields.items().iter().enumerate() {
            let which = FieldRef {
                structure: numbered(number),
                field: numbered(place),
            };
            push_field(text, spec, structure, which, field);
        }
    }
}
