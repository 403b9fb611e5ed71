// The entries of fields that records have.
ghost use Rattle.std.specs.Prelude.{◌≡◌, ◌+◌, ◌*◌, IfSome};
ghost use Rattle.std.specs.Bool.{OnTrue};
ghost use Rattle.dsr_meaning.specs.Cells as cells;
ghost use Rattle.dsr_meaning.specs.Legal.{HasBits, HasEntry};

use dsr_ir::{Element, FieldPlace, FieldRef, Layout};
use dsr_layout::field_place;
use dsr_schema::width_bits;

// The bit behind an entry, counted from the start of its record.
fn bit_behind(place: &FieldPlace, index: u64) -> Option<u64>
    ensures { IfSome result
        (λ bit. bit ≡ place.now.bit + (index + 1) * cells.width_bits place.now.width) }
{
    let entries = index.checked_add(1)?;
    place
        .bit
        .checked_add(entries.checked_mul(width_bits(place.width))?)
}

// Whether so many bits from the start of a record on are its own.
fn has_bits(layout: &Layout, elem: Element, bits: u64) -> bool
    ensures { OnTrue result (HasBits layout.now elem bits) }
{
    if elem.pool == 0 {
        return bits <= layout.length.saturating_mul(8);
    }
    match layout.pools.items().get(elem.pool as usize - 1) {
        Some(numbers) => {
            u64::from(elem.slot) < numbers.count && bits <= numbers.slot.saturating_mul(8)
        }
        None => false,
    }
}

/// Whether a record has an entry of a field.
pub fn has_entry(layout: &Layout, elem: Element, field: FieldRef, index: u64) -> bool
    ensures { OnTrue result (HasEntry layout.now elem field index) }
{
    let Some(place) = field_place(layout, field) else {
        return false;
    };
    let Some(bits) = bit_behind(&place, index) else {
        return false;
    };
    index < place.length.unwrap_or(1) && has_bits(layout, elem, bits)
}
