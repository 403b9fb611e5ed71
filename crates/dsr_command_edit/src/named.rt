// The writes that lines name.
ghost use Rattle.std.specs.Prelude.{◌≡◌, ◌<◌, ◌≤◌, ◌^◌, ℕ, Decides, MatchOption, Some, length, slice_get};
ghost use Rattle.dsr_command_edit.specs.Found.{FindsField, FindsIn, FindsUnder, IsNamedAs, IsPoolNamed};
ghost use Rattle.dsr_command_edit.specs.Named.{IsRecordNamed, IsWriteOf};
ghost use Rattle.dsr_edit.specs.declared.groups.CellWrite as writes;
ghost use Rattle.dsr_edit_text.specs.Shown.{shown};
ghost use Rattle.dsr_ir.specs.declared.tuples.Element as tuples;
ghost use Rattle.dsr_meaning.specs.Limits.{most_fields};
ghost use Rattle.dsr_meaning.specs.Typed.{AreTyped, IsTyped};

use dsr_answers::pool_name;
use dsr_edit::CellWrite;
use dsr_edit_text::SetLine;
use dsr_ir::{Element, Field, FieldRef, Spec, Structure, Structures};
use dsr_report_read::{has_name, is_of_pool};

// The pool with this name.
fn pool_named(spec: &Spec, name: &[u8]) -> Option<u32>
    requires typed { IsTyped spec.now }
    ensures { MatchOption result ((pool : ℕ) → IsPoolNamed spec.now name.now pool → ⊥)
        (IsPoolNamed spec.now name.now) }
{
    for place in 0..spec.base.pools.items().len() {
        let pool = place as u32 + 1;
        if pool_name(spec, pool) == name {
            return Some(pool);
        }
    }
    None
}

// The slot of the pool, where there may be one with this number.
fn slot_of(pool: u32, slot: u64) -> Option<Element>
    ensures { MatchOption result (2 ^ 32 ≤ slot)
        (λ elem. (slot < 2 ^ 32) × (elem ≡ record { pool = pool; slot = slot })) }
{
    let Ok(slot) = u32::try_from(slot) else {
        return None;
    };
    Some(Element { pool, slot })
}

// The record that the line names.
fn record_named(spec: &Spec, set: &SetLine) -> Option<Element>
    requires typed { IsTyped spec.now }
    ensures { MatchOption result
        ((elem : tuples.Element) → IsRecordNamed spec.now (shown set.now) elem → ⊥)
        (IsRecordNamed spec.now (shown set.now)) }
{
    let Some(slot) = set.slot else {
        return Some(Element { pool: 0, slot: 0 });
    };
    let Some(pool) = pool_named(spec, set.pool) else {
        return None;
    };
    slot_of(pool, slot)
}

// Whether the field has this name, and is an array or not.
fn is_named(field: &Field, name: &[u8], indexed: bool) -> bool
    ensures { Decides result (IsNamedAs name.now indexed field.now) }
{
    if !has_name(field) {
        return false;
    }
    if field.len.is_some() != indexed {
        return false;
    }
    field.name.bytes() == name
}

// The structure's own field with this name.
fn field_under(number: u32, structure: &Structure, name: &[u8], indexed: bool) -> Option<FieldRef>
    requires few { length structure.now.fields ≤ most_fields }
    ensures { FindsUnder number structure.now name.now indexed result }
{
    for (place, field) in structure.fields.items().iter().enumerate() {
        if is_named(field, name, indexed) {
            return Some(FieldRef {
                structure: number,
                field: place as u32,
            });
        }
    }
    None
}

// The structure's own field with this name, where the pool's records have it.
fn field_in(
    base: &Structures,
    pool: u32,
    number: u32,
    structure: &Structure,
    name: &[u8],
    indexed: bool,
) -> Option<FieldRef>
    requires typed { AreTyped base.now }
    requires declared { slice_get base.now.structures number ≡ Some structure.now }
    ensures { FindsIn base.now pool number name.now indexed result }
{
    if !is_of_pool(base, pool, number) {
        return None;
    }
    field_under(number, structure, name, indexed)
}

// The first field with this name of the pool's records.
fn field_named(base: &Structures, pool: u32, name: &[u8], indexed: bool) -> Option<FieldRef>
    requires typed { AreTyped base.now }
    ensures { FindsField base.now pool name.now indexed result }
{
    for (number, structure) in base.structures.items().iter().enumerate() {
        let found = field_in(base, pool, number as u32, structure, name, indexed);
        if found.is_some() {
            return found;
        }
    }
    None
}

/// The write that a line names; none where there is no such pool or field.
pub fn write_of(spec: &Spec, set: &SetLine) -> Option<CellWrite>
    requires typed { IsTyped spec.now }
    ensures { MatchOption result
        ((write : writes.CellWrite) → IsWriteOf spec.now (shown set.now) write → ⊥)
        (IsWriteOf spec.now (shown set.now)) }
{
    let Some(elem) = record_named(spec, set) else {
        return None;
    };
    let Some(field) = field_named(&spec.base, elem.pool, set.field, set.index.is_some()) else {
        return None;
    };
    Some(CellWrite {
        elem,
        field,
        index: set.index,
        value: set.value,
    })
}
