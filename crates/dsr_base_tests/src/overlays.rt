// Cells over bytes that are borrowed: an overlay holds what a whole image holds after the same put.
ghost use Rattle.std.specs.Prelude.{◌≡◌, ◌<◌, ◌^◌, IfOk};
ghost use Rattle.dsr_meaning.specs.Cells.{IsCellOf};

use crate::cells::{fits, is_cell};
use dsr_image::{ImageBytes, Whole};
use dsr_ir::{Cell, NoMemory, Order};
use dsr_overlay::Overlay;
use std::alloc::Global;

// A cell's first bit, its width, whether it is bytewise and its order; a value to put; and the
// bytes from 4,094 to 4,097 after that, which lie in two pages. All bytes are 0 before.
type Row = (u64, u8, bool, Order, u64, [u8; 4]);

const ROWS: [Row; 3] = [
    (32_752, 32, true, Order::Little, 16_909_060, [4, 3, 2, 1]),
    (32_752, 32, true, Order::Big, 16_909_060, [1, 2, 3, 4]),
    (32_764, 9, false, Order::Big, 357, [0, 80, 22, 0]),
];

// Claims the bytes of a cell, puts the value and gets it.
fn put_and_get<I: ImageBytes>(image: &mut I, cell: &Cell, value: u64) -> Result<u64, NoMemory>
    requires cell { IsCellOf (I.bytes image.old) cell.now }
    requires fits { value < 2 ^ cell.now.width }
    ensures { IfOk result (λ got. got ≡ value) }
{
    let count = (cell.bit % 8 + u64::from(cell.width)).div_ceil(8);
    image.claim(cell.bit / 8, count)?;
    image.put(cell, value);
    Ok(image.get(cell))
}

// The bytes of a whole image after the put, or none where it has no such cell.
fn in_whole(alloc: Global, bytes: &[u8], cell: &Cell, value: u64) -> Result<Vec<u8>, NoMemory> {
    let mut image = Whole::new(Vec::from_slice(alloc, bytes)?);
    if !is_cell(image.len(), cell) || !fits(value, cell.width) {
        return Ok(Vec::new(alloc));
    }
    put_and_get(&mut image, cell, value)?;
    Ok(image.into_bytes())
}

// The same of an overlay.
fn in_overlay(alloc: Global, bytes: &[u8], cell: &Cell, value: u64) -> Result<Vec<u8>, NoMemory> {
    let mut image = Overlay::new(alloc, bytes)?;
    if !is_cell(image.len(), cell) || !fits(value, cell.width) {
        return Ok(Vec::new(alloc));
    }
    let got = put_and_get(&mut image, cell, value)?;
    if got != value || image.len() == 0 || image.byte(0) != 0 {
        return Ok(Vec::new(alloc));
    }
    image.bytes()
}

fn has_row(bytes: &[u8], expected: &[u8]) -> bool {
    bytes.len() == 8192 && &bytes[4094..4098] == expected
}

// Whether both have the bytes of the row.
fn holds(alloc: Global, bytes: &[u8], row: &Row) -> Result<bool, NoMemory> {
    let (bit, width, bytewise, order, value, expected) = *row;
    let cell = Cell {
        bit,
        width,
        bytewise,
        order,
    };
    let overlay = in_overlay(alloc, bytes, &cell, value)?;
    let whole = in_whole(alloc, bytes, &cell, value)?;
    Ok(has_row(&overlay, &expected) && overlay.as_slice() == whole.as_slice())
}

pub fn hold_as_whole_images(alloc: Global) -> Result<bool, NoMemory> {
    let bytes = vec![in alloc; 0; 8192]?;
    for row in &ROWS {
        if !holds(alloc, &bytes, row)? {
            return Ok(false);
        }
    }
    let zeros = vec![in alloc; 0; 8192]?;
    Ok(bytes.as_slice() == zeros.as_slice())
}
