// The cells of records.
ghost use Rattle.std.specs.Prelude.{◌≡◌, ◌≤◌, ◌+◌, ◌*◌, Some, IsSome};
ghost use Rattle.dsr_ir.specs.Layouts.{field_place};
ghost use Rattle.dsr_meaning.specs.Cells.{cell_of, record_start, IsFieldCell};
ghost use Rattle.dsr_meaning.specs.Legal.{HasEntry, IsLegalLayout};
ghost use Rattle.dsr_meaning.specs.Limits.{most_bytes};

use crate::fixed_fields::is_bytewise;
use crate::lookups::{field_place, pool_numbers};
use dsr_ir::{Cell, Element, FieldPlace, FieldRef, Layout};
use dsr_schema::width_bits;

// The first byte of a record.
fn record_start(layout: &Layout, elem: Element) -> u64
    requires small { record_start layout.now elem ≤ most_bytes }
    ensures { result ≡ record_start layout.now elem }
{
    match pool_numbers(layout, elem.pool) {
        Some(numbers) => numbers.start + u64::from(elem.slot) * numbers.slot,
        None => 0,
    }
}

// The place of a declared field.
fn declared_place(layout: &Layout, field: FieldRef) -> FieldPlace
    requires declared { IsSome (field_place layout.now field) }
    ensures { field_place layout.now field ≡ Some result }
{
    field_place(layout, field).unwrap()
}

/// The cell of a record's field, at an index where it is an array. The field is one of a structure
/// by which the record is read, so that the record has it.
pub fn cell(layout: &Layout, elem: Element, field: FieldRef, index: u64) -> Cell
    requires legal { IsLegalLayout layout.now }
    requires entry { HasEntry layout.now elem field index }
    ensures cell { cell_of layout.now elem field index ≡ Some result }
    ensures form { IsFieldCell result }
    ensures within { result.bit + result.width ≤ 8 * layout.now.length }
{
    let place = declared_place(layout, field);
    let bits = width_bits(place.width);
    Cell {
        bit: 8 * record_start(layout, elem) + place.bit + index * bits,
        width: bits as u8,
        bytewise: is_bytewise(place.width),
        order: layout.order,
    }
}
