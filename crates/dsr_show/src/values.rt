// What an image holds: values of fields, members and pairs.
ghost use Rattle.std.specs.Prelude.{◌≡◌, ◌↔◌, IfSome, IsTrue};
ghost use Rattle.dsr_ir.specs.declared.tuples.Fact.TheVariants as facts;
ghost use Rattle.dsr_ir.specs.declared.tuples.Target.TheVariants.{Elem, Num};
ghost use Rattle.dsr_meaning.specs.Cells.{cell_value};
ghost use Rattle.dsr_model.specs.Facts.{IsInModel};
ghost use Rattle.dsr_relations.specs.Tuples.{FindsNextValue};

use crate::images::ImageModel;
use dsr_ir::{Cell, Element, Fact, FieldPlace, FieldRef, Target};
use dsr_layout::{field_place, is_bytewise, pool_numbers};
use dsr_meaning::value_of_cell;
use dsr_schema::width_bits;

// The most bytes of an image.
const MOST: u64 = 67_108_864;

// The first bit of a record.
fn first_bit(image: &ImageModel<'_>, elem: Element) -> Option<u64> {
    if elem.pool == 0 {
        return Some(0);
    }
    let numbers = pool_numbers(&image.layout, elem.pool)?;
    let slot = u64::from(elem.slot).checked_mul(numbers.slot)?;
    numbers.start.checked_add(slot)?.checked_mul(8)
}

// The first bit of an entry of a field.
fn entry_bit(record: u64, place: &FieldPlace, index: u64) -> Option<u64> {
    let entry = index.checked_mul(width_bits(place.width))?;
    record.checked_add(place.bit)?.checked_add(entry)
}

// The value of a cell; none where it isn't in the image.
fn value_in(bytes: &[u8], cell: &Cell) -> Option<u64>
    ensures { IfSome result (λ value. value ≡ cell_value bytes.now cell.now) }
{
    let length = bytes.len() as u64;
    if length > MOST || cell.width > 64 {
        return None;
    }
    let end = cell.bit.checked_add(u64::from(cell.width))?;
    if end > 8 * length {
        return None;
    }
    Some(value_of_cell(bytes, cell))
}

/// The value of a record's field, at an index where it is an array; none where it isn't in the
/// image.
pub fn field_value(
    image: &ImageModel<'_>,
    elem: Element,
    field: FieldRef,
    index: u64,
) -> Option<u64> {
    let place = field_place(&image.layout, field)?;
    let bit = entry_bit(first_bit(image, elem)?, &place, index)?;
    let width = width_bits(place.width);
    if width > 64 {
        return None;
    }
    let cell = Cell {
        bit,
        width: width as u8,
        bytewise: is_bytewise(place.width),
        order: image.layout.order,
    };
    value_in(&image.bytes, &cell)
}

/// Whether a record is a member of a set.
pub fn is_member(image: &ImageModel<'_>, set: u32, elem: Element) -> bool
    ensures { IsTrue result ↔ IsInModel image.now.model (facts.Member set elem) }
{
    image.model.has(&Fact::Member(set, elem))
}

/// Whether two records are a pair of a relation.
pub fn is_pair(image: &ImageModel<'_>, rel: u32, source: Element, target: Element) -> bool
    ensures { IsTrue result ↔ IsInModel image.now.model (facts.Pair rel source (Elem target)) }
{
    image
        .model
        .has(&Fact::Pair(rel, source, Target::Elem(target)))
}

/// The least number from `from` on that a relation gives to a record.
pub fn value_after(image: &ImageModel<'_>, rel: u32, source: Element, from: u64) -> Option<u64>
    ensures { FindsNextValue (λ value. IsInModel image.now.model (facts.Pair rel source (Num value)))
        from result }
{
    image.model.next_value(rel, source, from)
}
