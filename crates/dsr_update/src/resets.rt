// The reset of a record that is taken from a supply.
ghost use Rattle.std.specs.Prelude.{◌≡◌, ◌<◌, ◌≤◌, ◌^◌, ◌+◌, ℕ, IfSome, length, option_and_then, option_map, slice_get};
ghost use Rattle.dsr_image.specs.Images.{AreClaimed};
ghost use Rattle.dsr_ir.specs.Layouts as layouts;
ghost use Rattle.dsr_meaning.specs.Cells.{width_bits};
ghost use Rattle.dsr_meaning.specs.Legal.{HasEntry, IsLegalLayout};
ghost use Rattle.dsr_meaning.specs.Typed.{pool_at};
ghost use Rattle.dsr_step_theory.specs.Puts.{ArePut};
ghost use Rattle.dsr_step_theory.specs.Resets as said;
ghost use Rattle.dsr_step_theory.specs.Steps.{IsSlot};
ghost use Rattle.dsr_update.specs.Claims.{CanReset, IsRecordField, IsRecordStructure, IsSlotClaimed};
ghost use Rattle.dsr_meaning.specs.Limits.{most_bytes};

use dsr_image::ImageBytes;
use dsr_ir::{Cell, Element, Field, FieldRef, Kind, Layout, Order, Spec};
use dsr_layout::{cell, field_place, pool_numbers};
use dsr_schema::{parent, pool_at};

// Makes so many claimed bytes from one on 0.
fn zero_bytes<I: ImageBytes>(at: u64, count: u64, image: &mut I)
    requires within { at + count ≤ length (I.ImageBytes.bytes image.old) }
    requires small { at + count ≤ most_bytes }
    requires claimed { AreClaimed (I.ImageBytes.claimed image.old) at count }
    ensures put { ArePut (said.zeros at count) (I.ImageBytes.bytes image.old)
        (I.ImageBytes.bytes image.new) }
    ensures long { length (I.ImageBytes.bytes image.new) ≡ length (I.ImageBytes.bytes image.old) }
    ensures claimed { I.ImageBytes.claimed image.new ≡ I.ImageBytes.claimed image.old }
{
    for byte in at..at + count {
        let cell = Cell {
            bit: 8 * byte,
            width: 8,
            bytewise: true,
            order: Order::Little,
        };
        image.put(&cell, 0);
    }
}

fn zero_slot<I: ImageBytes>(layout: &Layout, elem: Element, image: &mut I)
    requires legal { IsLegalLayout layout.now }
    requires slot { IsSlot layout.now elem }
    requires long { length (I.ImageBytes.bytes image.old) ≡ layout.now.length }
    requires claimed { IsSlotClaimed (I.ImageBytes.claimed image.old) layout.now elem }
    ensures put { ArePut (said.slot_zeros layout.now elem) (I.ImageBytes.bytes image.old)
        (I.ImageBytes.bytes image.new) }
    ensures long { length (I.ImageBytes.bytes image.new) ≡ length (I.ImageBytes.bytes image.old) }
    ensures claimed { I.ImageBytes.claimed image.new ≡ I.ImageBytes.claimed image.old }
{
    if let Some(numbers) = pool_numbers(layout, elem.pool) {
        let start = numbers.start + u64::from(elem.slot) * numbers.slot;
        zero_bytes(start, numbers.slot, image);
    }
}

// Puts the value into so many entries of the record's field.
fn put_entries<I: ImageBytes>(
    layout: &Layout,
    elem: Element,
    field: FieldRef,
    count: u64,
    value: u64,
    image: &mut I,
)
    requires legal { IsLegalLayout layout.now }
    requires slot { IsSlot layout.now elem }
    requires entries { (i : ℕ) → i < count → HasEntry layout.now elem field i }
    requires fits { IfSome (layouts.field_place layout.now field)
        (λ place. value < 2 ^ width_bits place.width) }
    requires long { length (I.ImageBytes.bytes image.old) ≡ layout.now.length }
    requires claimed { IsSlotClaimed (I.ImageBytes.claimed image.old) layout.now elem }
    ensures put { ArePut (said.entry_puts layout.now elem field count value)
        (I.ImageBytes.bytes image.old) (I.ImageBytes.bytes image.new) }
    ensures long { length (I.ImageBytes.bytes image.new) ≡ length (I.ImageBytes.bytes image.old) }
    ensures claimed { I.ImageBytes.claimed image.new ≡ I.ImageBytes.claimed image.old }
{
    for index in 0..count {
        image.put(&cell(layout, elem, field, index), value);
    }
}

// The number to which a field of the kind is reset; none for a gap.
fn reset_number(layout: &Layout, kind: Kind) -> Option<u64>
    ensures { result ≡ said.reset_number layout.now kind }
{
    match kind {
        Kind::Number { init } => Some(init),
        Kind::Refers { pool } => Some(pool_numbers(layout, pool)?.none),
        Kind::Gap => None,
    }
}

// Resets each entry of a field of the record.
fn reset_field<I: ImageBytes>(
    spec: &Spec,
    layout: &Layout,
    elem: Element,
    place: FieldRef,
    field: &Field,
    image: &mut I,
)
    requires can { CanReset spec.now layout.now elem (length (I.ImageBytes.bytes image.old)) }
    requires legal { IsLegalLayout layout.now }
    requires of_record { IsRecordField spec.now elem place field.now }
    requires claimed { IsSlotClaimed (I.ImageBytes.claimed image.old) layout.now elem }
    ensures put { ArePut (said.field_puts layout.now elem place field.now)
        (I.ImageBytes.bytes image.old) (I.ImageBytes.bytes image.new) }
    ensures long { length (I.ImageBytes.bytes image.new) ≡ length (I.ImageBytes.bytes image.old) }
    ensures claimed { I.ImageBytes.claimed image.new ≡ I.ImageBytes.claimed image.old }
{
    let (Some(value), Some(at)) = (reset_number(layout, field.kind), field_place(layout, place))
    else {
        return;
    };
    let count = match at.length {
        Some(length) => length,
        None => 1,
    };
    put_entries(layout, elem, place, count, value, image);
}

// Resets the fields that a structure of the record itself declares.
fn reset_structure<I: ImageBytes>(
    spec: &Spec,
    layout: &Layout,
    elem: Element,
    number: u32,
    image: &mut I,
)
    requires can { CanReset spec.now layout.now elem (length (I.ImageBytes.bytes image.old)) }
    requires legal { IsLegalLayout layout.now }
    requires of_record { IsRecordStructure spec.now elem number }
    requires claimed { IsSlotClaimed (I.ImageBytes.claimed image.old) layout.now elem }
    ensures put { ArePut (said.structure_puts spec.now.base layout.now elem number)
        (I.ImageBytes.bytes image.old) (I.ImageBytes.bytes image.new) }
    ensures long { length (I.ImageBytes.bytes image.new) ≡ length (I.ImageBytes.bytes image.old) }
    ensures claimed { I.ImageBytes.claimed image.new ≡ I.ImageBytes.claimed image.old }
{
    let Some(structure) = spec.base.structures.items().get(number as usize) else {
        return;
    };
    for (field, declared) in structure.fields.items().iter().enumerate() {
        let place = FieldRef {
            structure: number,
            field: field as u32,
        };
        reset_field(spec, layout, elem, place, declared, image);
    }
}

// The structure of the record's pool.
fn structure_of(spec: &Spec, elem: Element) -> Option<u32>
    ensures { result ≡ option_map (λ d. d.structure) (pool_at spec.now.base elem.pool) }
{
    Some(pool_at(&spec.base, elem.pool)?.structure)
}

/// Resets a record: its bytes become 0, and then each field of its pool's structure and of the
/// ancestors gets its reset value.
pub fn reset<I: ImageBytes>(spec: &Spec, layout: &Layout, elem: Element, image: &mut I)
    requires can { CanReset spec.now layout.now elem (length (I.ImageBytes.bytes image.old)) }
    requires claimed { IsSlotClaimed (I.ImageBytes.claimed image.old) layout.now elem }
    ensures put { ArePut (said.reset_puts spec.now.base layout.now elem)
        (I.ImageBytes.bytes image.old) (I.ImageBytes.bytes image.new) }
    ensures long { length (I.ImageBytes.bytes image.new) ≡ length (I.ImageBytes.bytes image.old) }
    ensures claimed { I.ImageBytes.claimed image.new ≡ I.ImageBytes.claimed image.old }
{
    zero_slot(layout, elem, image);
    let mut next = structure_of(spec, elem);
    while let Some(current) = next {
        reset_structure(spec, layout, elem, current, image);
        next = parent(&spec.base, current);
    }
}
