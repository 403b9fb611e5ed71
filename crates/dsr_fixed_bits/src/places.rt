// Where structures end, and where their own fields begin, found without memory.
ghost use Rattle.std.specs.Prelude.{◌≡◌, [], option_map};
ghost use Rattle.dsr_meaning.specs.Cells.{width_bits};
ghost use Rattle.dsr_meaning.specs.Extents as extents;
ghost use Rattle.dsr_meaning.specs.Places as meaning;
ghost use Rattle.dsr_layout.specs.Ends.{end_behind};
ghost use Rattle.dsr_layout.specs.Tables.{known, clip};
ghost use Rattle.dsr_fixed_bits.specs.Bits.{start_of};

use crate::values::entries_of;
use dsr_ir::{Field, Structure, Width};
use dsr_schema::width_bits;

// The first byte boundary at a bit or behind it.
fn up_to_byte(bit: u64) -> u64
    ensures { result ≡ clip (extents.up_to_byte bit) }
{
    bit.div_ceil(8).saturating_mul(8)
}

// The bit behind a field that begins at a bit.
fn bit_behind(bit: u64, width: Width, entries: Option<u64>) -> u64
    ensures { result ≡ clip (extents.bit_behind bit (record { bits = width_bits width; entries = entries })) }
{
    let bits = width_bits(width);
    match entries {
        Some(count) => up_to_byte(bit.saturating_add(count.saturating_mul(bits))),
        None => bit.saturating_add(bits),
    }
}

/// The bit behind fields that follow each other from a bit on; none where a length has no value.
pub fn bit_behind_fields(fixed: &[Option<u64>], start: u64, fields: &[Field]) -> Option<u64>
    ensures { result ≡ option_map clip (meaning.bit_behind_fields (known fixed.now) start fields.now) }
{
    let mut bit = start;
    for field in fields {
        let entries = entries_of(fixed, &field.len)?;
        bit = bit_behind(bit, field.width, entries);
    }
    Some(bit)
}

// The end of a structure whose own fields begin at a bit.
fn end_behind(fixed: &[Option<u64>], start: Option<u64>, fields: &[Field]) -> Option<u64>
    ensures { result ≡ end_behind (known fixed.now) start fields.now }
{
    Some(up_to_byte(bit_behind_fields(fixed, start?, fields)?))
}

/// The bit at which the own fields of a structure begin: the end of its parent, which is declared before it.
pub fn start_of(structures: &[Structure], structure: usize, parent: Option<u32>) -> Option<u64>
    ensures { result ≡ start_of structures.now structure parent }
{
    let Some(parent) = parent else {
        return Some(0);
    };
    if parent as usize >= structure {
        return Some(0);
    }
    let Some(own) = structures.get(parent as usize) else {
        return Some(0);
    };
    let start = start_of(structures, parent as usize, own.parent);
    end_behind(&[], start, own.fields.items())
}
