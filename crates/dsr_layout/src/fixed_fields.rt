// The fixed fields of `Head`: their cells and values.
ghost use Rattle.std.specs.Prelude.{◌≡◌, ◌≤◌, ℕ, false, [], All, IfSome, IfOk, IfErr, length, map, option_map};
ghost use Rattle.std.specs.Option.{option_map_or};
ghost use Rattle.dsr_meaning.specs.Cells.{cell_value, is_bytewise};
ghost use Rattle.dsr_meaning.specs.FixedFields.{fixed_cell, fixed_value, head_fields};
ghost use Rattle.dsr_meaning.specs.Refusals.{cut_refusals, ends_behind};
ghost use Rattle.dsr_meaning.specs.Placeable.{ArePlaceable};
ghost use Rattle.dsr_layout.specs.FixedCells.{cell_from, clipped_cell, next_bit, IsReadable};
ghost use Rattle.dsr_layout.specs.Tables.{known, clip_cell};
ghost use Rattle.dsr_layout.specs.Telling.{told_of, Tells};
ghost use Rattle.dsr_meaning.specs.Limits.{most_bytes};

use crate::faults::LayoutFault;
use crate::places::{bit_behind_fields, ends, start_in};
use dsr_ir::{Cell, Field, NoMemory, Order, Structures, Width};
use dsr_meaning::value_of_cell;
use dsr_schema::width_bits;
use std::alloc::Global;
use std::slice;

/// Whether an entry is read byte by byte.
pub fn is_bytewise(width: Width) -> bool
    ensures { result ≡ is_bytewise width }
{
    !matches!(width, Width::Bits(_))
}

// The fields that `Head` itself declares.
fn head_fields(base: &Structures) -> &[Field]
    ensures { result.now ≡ head_fields base.now }
{
    match base.structures.items().get(base.head as usize) {
        Some(head) => head.fields.items(),
        None => &[],
    }
}

// The cell of a field that begins at a bit, where it is a fixed one.
fn cell_from(order: Order, bit: Option<u64>, field: &Field) -> Option<Cell>
    ensures { result ≡ cell_from order bit field.now }
{
    if !field.fixed || field.len.is_some() {
        return None;
    }
    Some(Cell {
        bit: bit?,
        width: width_bits(field.width) as u8,
        bytewise: is_bytewise(field.width),
        order,
    })
}

// The bit behind a field, where its length is a number.
fn next_bit(bit: Option<u64>, field: &Field) -> Option<u64>
    ensures { result ≡ next_bit bit field.now }
{
    bit_behind_fields(&[], bit?, slice::from_ref(field))
}

// The cells of the fixed fields among fields that follow each other from a bit on.
fn cells_from(
    alloc: Global,
    order: Order,
    start: Option<u64>,
    fields: &[Field],
) -> Result<Vec<Option<Cell>>, NoMemory>
    ensures { IfOk result (λ cells. (k : ℕ) → known cells.items k ≡ clipped_cell order start fields.now k) }
{
    let mut cells = Vec::new(alloc);
    let mut bit = start;
    for field in fields {
        cells.push(cell_from(order, bit, field))?;
        bit = next_bit(bit, field);
    }
    Ok(cells)
}

// The cells of the fixed fields, by their numbers among the fields of `Head`.
fn fixed_cells(alloc: Global, base: &Structures) -> Result<Vec<Option<Cell>>, NoMemory>
    ensures { IfOk result (λ cells. (k : ℕ) → known cells.items k
        ≡ option_map clip_cell (fixed_cell base.now k)) }
{
    let structures = base.structures.items();
    let ends = ends(alloc, &[], structures)?;
    match structures.get(base.head as usize) {
        Some(head) => {
            let start = start_in(&ends, base.head as usize, head.parent);
            cells_from(alloc, base.order, start, head.fields.items())
        }
        None => Ok(Vec::new(alloc)),
    }
}

// The cell under a number.
fn known_cell(cells: &[Option<Cell>], number: usize) -> Option<Cell>
    ensures { result ≡ known cells.now number }
{
    match cells.get(number) {
        Some(cell) => *cell,
        None => None,
    }
}

// Whether the image ends before a cell does.
fn is_cut(cell: &Cell, length: u64) -> bool
    requires image { length ≤ most_bytes }
    ensures { result ≡ ends_behind length cell.now.bit cell.now.width }
{
    8 * length < cell.bit.saturating_add(u64::from(cell.width))
}

// Whether the image ends before the cell under a number does.
fn is_cut_at(cells: &[Option<Cell>], number: usize, length: u64) -> bool
    requires image { length ≤ most_bytes }
    ensures { result ≡ option_map_or (λ c. ends_behind length c.bit c.width) (known cells.now number) false }
{
    match known_cell(cells, number) {
        Some(cell) => is_cut(&cell, length),
        None => false,
    }
}

// `Short` where the image ends before a fixed field does.
fn cut(cells: &[Option<Cell>], fields: &[Field], length: u64) -> Option<LayoutFault>
    requires image { length ≤ most_bytes }
    ensures { result ≡ told_of (cut_refusals (known cells.now) fields.now length) }
{
    for (number, _) in fields.iter().enumerate() {
        if is_cut_at(cells, number, length) {
            return Some(LayoutFault::Short);
        }
    }
    None
}

fn value_in(bytes: &[u8], cell: &Option<Cell>) -> Option<u64>
    requires image { length bytes.now ≤ most_bytes }
    requires readable { IfSome cell.now (IsReadable (length bytes.now)) }
    ensures { result ≡ option_map (cell_value bytes.now) cell.now }
{
    match cell {
        Some(cell) => Some(value_of_cell(bytes, cell)),
        None => None,
    }
}

fn values_in(
    alloc: Global,
    bytes: &[u8],
    cells: &[Option<Cell>],
) -> Result<Vec<Option<u64>>, NoMemory>
    requires image { length bytes.now ≤ most_bytes }
    requires readable { All (λ c. IfSome c (IsReadable (length bytes.now))) cells.now }
    ensures { IfOk result (λ values. values.items ≡ map (option_map (cell_value bytes.now)) cells.now) }
{
    let mut values = Vec::new(alloc);
    for cell in cells {
        values.push(value_in(bytes, cell))?;
    }
    Ok(values)
}

/// The values of the fixed fields, by their numbers among the fields of `Head`; `Short` where the
/// image ends before one of them does.
pub fn fixed_values(
    alloc: Global,
    base: &Structures,
    bytes: &[u8],
) -> Result<Vec<Option<u64>>, LayoutFault>
    requires placeable { ArePlaceable base.now }
    requires image { length bytes.now ≤ most_bytes }
    ensures values { IfOk result (λ values. (k : ℕ) → known values.items k ≡ fixed_value base.now bytes.now k) }
    ensures uncut { IfOk result
        (λ _. cut_refusals (fixed_cell base.now) (head_fields base.now) (length bytes.now) ≡ []) }
    ensures refused { IfErr result
        (Tells (cut_refusals (fixed_cell base.now) (head_fields base.now) (length bytes.now))) }
{
    let cells = fixed_cells(alloc, base)?;
    if let Some(fault) = cut(&cells, head_fields(base), bytes.len() as u64) {
        return Err(fault);
    }
    Ok(values_in(alloc, bytes, &cells)?)
}
