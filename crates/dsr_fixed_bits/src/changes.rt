// Whether a line changes a bit of a fixed field.
ghost use Rattle.std.specs.Prelude.{◌≡◌, ◌≤◌, MatchBool};
ghost use Rattle.dsr_fixed_bits.specs.Bits.{AreFixedBefore, ChangesCell, ChangesOneOf, ChangesSome, IsBefore, IsSomeBefore};
ghost use Rattle.dsr_layout.specs.FixedCells.{cell_from, next_bit};
ghost use Rattle.dsr_undo_laws.specs.TakingBack.{ChangesFixed};
ghost use Rattle.dsr_meaning.specs.Limits.{most_bytes};

use crate::places::{bit_behind_fields, start_of};
use dsr_ir::{Cell, Field, Order, Structures};
use dsr_layout::is_bytewise;
use dsr_repair_theory::ByteChange;
use dsr_schema::width_bits;
use std::marker::Model;
use std::slice;

/// The fixed fields of declarations, with what is the same for all bytes.
#[derive(Drop)]
pub struct FixedBits<'a> {
    base: &'a Structures,
    // the bit at which the head's own fields begin
    start: Option<u64>,
    // a bit behind those of all fixed fields
    end: u64,
}

impl<'a> Model for FixedBits<'a> {
    ghost use Rattle.std.specs.Coded.{codes};
    ghost use Rattle.dsr_fixed_bits.specs.Bits.{AreResolved};
    ghost use Rattle.dsr_ir.specs.Exprs.{shape_code};
    ghost use Rattle.dsr_ir.specs.declared.declarations.Structures.{Structures};

    ghost Value = { Structures };

    ghost coded = { Prim.hlevel (codes, shape_code) };

    ghost view = { λ f. f.base.now };

    ghost invariant = { λ f. AreResolved f.base.now f.start f.end };
}

impl<'a> FixedBits<'a> {
    ghost use Rattle.std.specs.Prelude.{◌≡◌};

    /// Those of these declarations. Takes no memory.
    pub fn new(base: &'a Structures) -> FixedBits<'a>
        ensures { result ≡ base.now }
    {
        let structures = base.structures.items();
        let Some(head) = structures.get(base.head as usize) else {
            return FixedBits {
                base,
                start: None,
                end: 0,
            };
        };
        let start = start_of(structures, base.head as usize, head.parent);
        FixedBits {
            base,
            start,
            end: end_of_fixed(base.order, start, head.fields.items()),
        }
    }
}

// The cell of a field that begins at a bit, where it is a fixed one.
fn cell_from(order: Order, bit: Option<u64>, field: &Field) -> Option<Cell>
    ensures { result ≡ cell_from order bit field.now }
{
    if !field.fixed || field.len.is_some() {
        return None;
    }
    Some(Cell {
        bit: bit?,
        width: width_bits(field.width) as u8,
        bytewise: is_bytewise(field.width),
        order,
    })
}

// The bit behind a field, where its length is a number.
fn next_bit(bit: Option<u64>, field: &Field) -> Option<u64>
    ensures { result ≡ next_bit bit field.now }
{
    bit_behind_fields(&[], bit?, slice::from_ref(field))
}

// The greater one of a bit and the end of a cell, if there is one.
fn end_with(end: u64, cell: Option<Cell>) -> u64
    ensures further { end ≤ result }
    ensures behind { IsSomeBefore cell result }
{
    match cell {
        Some(cell) => end.max(cell.bit.saturating_add(u64::from(cell.width))),
        None => end,
    }
}

// A bit behind those of the fixed fields among fields that follow each other from a bit on.
fn end_of_fixed(order: Order, start: Option<u64>, fields: &[Field]) -> u64
    ensures { AreFixedBefore order start fields.now result }
{
    let mut end = 0;
    let mut bit = start;
    for field in fields {
        end = end_with(end, cell_from(order, bit, field));
        bit = next_bit(bit, field);
    }
    end
}

// Whether the line changes a bit of the cell.
fn changes_cell(cell: &Cell, line: &ByteChange) -> bool
    requires { line.now.place ≤ most_bytes }
    ensures { MatchBool result (ChangesCell cell.now line.now)
        (ChangesCell cell.now line.now → ⊥) }
{
    for bit in 0..8u32 {
        let at = 8 * line.place + u64::from(bit);
        let within = cell.bit <= at && at - cell.bit < u64::from(cell.width);
        if within && (line.new >> bit) % 2 != (line.old >> bit) % 2 {
            return true;
        }
    }
    false
}

// Whether it changes a bit of the field that begins at a bit, where that is a fixed one.
fn changes_field(order: Order, bit: Option<u64>, field: &Field, line: &ByteChange) -> bool
    requires { line.now.place ≤ most_bytes }
    ensures { MatchBool result (ChangesSome (cell_from order bit field.now) line.now)
        (ChangesSome (cell_from order bit field.now) line.now → ⊥) }
{
    match cell_from(order, bit, field) {
        Some(cell) => changes_cell(&cell, line),
        None => false,
    }
}

// Whether it changes a bit of one of the fixed fields among fields that follow each other from a
// bit on.
fn changes_one_of(order: Order, start: Option<u64>, fields: &[Field], line: &ByteChange) -> bool
    requires { line.now.place ≤ most_bytes }
    ensures { MatchBool result (ChangesOneOf order start fields.now line.now)
        (ChangesOneOf order start fields.now line.now → ⊥) }
{
    let mut bit = start;
    for field in fields {
        if changes_field(order, bit, field, line) {
            return true;
        }
        bit = next_bit(bit, field);
    }
    false
}

/// Whether the line's two bytes differ in a bit of a fixed field. Takes no memory. Fields are
/// looked at only where the byte lies among them.
pub fn changes_fixed(fixed: &FixedBits, line: &ByteChange) -> bool
    requires { line.now.place ≤ most_bytes }
    ensures { MatchBool result (ChangesFixed fixed.now line.now)
        (ChangesFixed fixed.now line.now → ⊥) }
{
    if fixed.end <= 8 * line.place {
        return false;
    }
    let base = fixed.base;
    let Some(head) = base.structures.items().get(base.head as usize) else {
        return false;
    };
    changes_one_of(base.order, fixed.start, head.fields.items(), line)
}
