// Where structures end, and where their fields begin. Sums and products stop at the last number of
// 64 bits, which no structure with a size ends at.
ghost use Rattle.std.specs.Prelude.{◌≡◌, ◌≤◌, ◌⊎◌, None, Some, IsSome, [], length, map, option_map, IfOk, IfErr};
ghost use Rattle.dsr_meaning.specs.Cells.{width_bits};
ghost use Rattle.dsr_meaning.specs.Extents as extents;
ghost use Rattle.dsr_meaning.specs.Layouts.{places_of};
ghost use Rattle.dsr_meaning.specs.Places as meaning;
ghost use Rattle.dsr_meaning.specs.Refusals.{size_refusals};
ghost use Rattle.dsr_layout.specs.Ends.{start_in, end_behind, own_places_in, LacksPlaces};
ghost use Rattle.dsr_layout.specs.Tables.{known, clip, clip_place, end_in, size_in, HoldsEnds};
ghost use Rattle.dsr_layout.specs.Telling.{Tells};
ghost use Rattle.dsr_layout.specs.declared.faults.LayoutFault.{LayoutFault};
ghost use Rattle.dsr_meaning.specs.Limits.{most_structures};

use crate::faults::LayoutFault;
use crate::values::entries_of;
use dsr_ir::{Field, FieldPlace, NoMemory, Seq, Structure, Width};
use dsr_schema::width_bits;
use std::alloc::Global;

// The first byte boundary at a bit or behind it.
fn up_to_byte(bit: u64) -> u64
    ensures { result ≡ clip (extents.up_to_byte bit) }
{
    bit.div_ceil(8).saturating_mul(8)
}

// The bit behind a field that begins at a bit.
fn bit_behind(bit: u64, width: Width, entries: Option<u64>) -> u64
    ensures { result ≡ clip (extents.bit_behind bit (record { bits = width_bits width; entries = entries })) }
{
    let bits = width_bits(width);
    match entries {
        Some(count) => up_to_byte(bit.saturating_add(count.saturating_mul(bits))),
        None => bit.saturating_add(bits),
    }
}

/// The bit behind fields that follow each other from a bit on; none where a length has no value.
pub fn bit_behind_fields(fixed: &[Option<u64>], start: u64, fields: &[Field]) -> Option<u64>
    ensures { result ≡ option_map clip (meaning.bit_behind_fields (known fixed.now) start fields.now) }
{
    let mut bit = start;
    for field in fields {
        let entries = entries_of(fixed, &field.len)?;
        bit = bit_behind(bit, field.width, entries);
    }
    Some(bit)
}

// The end of a structure by its number.
fn end_in(ends: &[Option<u64>], structure: u32) -> Option<u64>
    ensures { result ≡ end_in ends.now structure }
{
    match ends.get(structure as usize) {
        Some(end) => *end,
        None => Some(0),
    }
}

/// The bit at which the own fields of a structure begin: the end of its parent, which is declared
/// before it.
pub fn start_in(ends: &[Option<u64>], structure: usize, parent: Option<u32>) -> Option<u64>
    ensures { result ≡ start_in ends.now structure parent }
{
    match parent {
        Some(parent) if (parent as usize) < structure => end_in(ends, parent),
        _ => Some(0),
    }
}

/// The size of a structure in bits.
pub fn size_in(ends: &[Option<u64>], structure: u32) -> Option<u64>
    ensures { result ≡ size_in ends.now structure }
{
    let end = end_in(ends, structure)?;
    if end < u64::MAX { Some(end) } else { None }
}

// The end of a structure whose own fields begin at a bit.
fn end_behind(fixed: &[Option<u64>], start: Option<u64>, fields: &[Field]) -> Option<u64>
    ensures { result ≡ end_behind (known fixed.now) start fields.now }
{
    Some(up_to_byte(bit_behind_fields(fixed, start?, fields)?))
}

/// Where each structure ends, in bits from the start of its records.
pub fn ends(
    alloc: Global,
    fixed: &[Option<u64>],
    structures: &[Structure],
) -> Result<Vec<Option<u64>>, NoMemory>
    ensures { IfOk result (λ ends. HoldsEnds (known fixed.now) structures.now ends.items) }
{
    let mut ends = Vec::new(alloc);
    for structure in structures {
        let start = start_in(&ends, ends.len(), structure.parent);
        let end = end_behind(fixed, start, structure.fields.items());
        ends.push(end)?;
    }
    Ok(ends)
}

// The places of fields that follow each other from a bit on.
fn placed(
    alloc: Global,
    fixed: &[Option<u64>],
    start: u64,
    fields: &[Field],
) -> Result<Vec<FieldPlace>, LayoutFault>
    ensures placed { IfOk result
        (λ places. option_map (map clip_place) (meaning.placed (known fixed.now) start fields.now)
        ≡ Some places.items) }
    ensures refused { IfErr result
        (λ e. (e ≡ LayoutFault.NoMemory)
        ⊎ ((e ≡ LayoutFault.Arith) × (meaning.placed (known fixed.now) start fields.now ≡ None))) }
{
    let mut places = Vec::new(alloc);
    let mut bit = start;
    for field in fields {
        let length = entries_of(fixed, &field.len).ok_or(LayoutFault::Arith)?;
        let width = field.width;
        places.push(FieldPlace { bit, width, length })?;
        bit = bit_behind(bit, width, length);
    }
    Ok(places)
}

// The places of a structure's own fields; `Arith` where the structure has no size.
fn own_places(
    alloc: Global,
    fixed: &[Option<u64>],
    ends: &[Option<u64>],
    number: u32,
    structure: &Structure,
) -> Result<Vec<FieldPlace>, LayoutFault>
    ensures sized { IfOk result (λ _. IsSome (size_in ends.now number)) }
    ensures placed { IfOk result
        (λ places. own_places_in (known fixed.now) ends.now number structure.now
        ≡ Some places.items) }
    ensures refused { IfErr result
        (λ e. (e ≡ LayoutFault.NoMemory)
        ⊎ ((e ≡ LayoutFault.Arith) × LacksPlaces (known fixed.now) ends.now number structure.now)) }
{
    if size_in(ends, number).is_none() {
        return Err(LayoutFault::Arith);
    }
    let start = start_in(ends, number as usize, structure.parent).ok_or(LayoutFault::Arith)?;
    placed(alloc, fixed, start, structure.fields.items())
}

/// The places of the own fields of all structures; `Arith` where a structure has no size.
pub fn places(
    alloc: Global,
    fixed: &[Option<u64>],
    ends: &[Option<u64>],
    structures: &[Structure],
) -> Result<Vec<Seq<FieldPlace>>, LayoutFault>
    requires few { length structures.now ≤ most_structures }
    requires ends { HoldsEnds (known fixed.now) structures.now ends.now }
    ensures placed { IfOk result (λ places. places_of (known fixed.now) structures.now ≡ Some places.items) }
    ensures sized { IfOk result (λ _. size_refusals (size_in ends.now) structures.now ≡ []) }
    ensures refused { IfErr result (Tells (size_refusals (size_in ends.now) structures.now)) }
{
    let mut places = Vec::new(alloc);
    for (number, structure) in structures.iter().enumerate() {
        let own = own_places(alloc, fixed, ends, number as u32, structure)?;
        places.push(Seq::new(own))?;
    }
    Ok(places)
}
