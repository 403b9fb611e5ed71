// What is got from a cell, and what the image's bytes are after something was put.
ghost use Rattle.std.specs.Prelude.{◌≡◌, ◌≤◌, ◌<◌, ◌+◌, ◌*◌, ◌^◌, IfOk, length};
ghost use Rattle.std.specs.Bool.{OnTrue};
ghost use Rattle.dsr_image.specs.Images.{IsCellClaimed};
ghost use Rattle.dsr_meaning.specs.Cells.{IsCellOf, IsFieldCell};
ghost use Rattle.dsr_meaning.specs.Writes.{AreCellsApart};

use crate::cell_rows::{BIG, BITS, BYTES, LITTLE, Row};
use dsr_image::{ImageBytes, Whole};
use dsr_ir::{Cell, NoMemory, Order};
use std::alloc::Global;

fn image(alloc: Global) -> Result<Whole, NoMemory>
    ensures { IfOk result (λ image. length image ≡ 10) }
{
    Ok(Whole::new(Vec::from_slice(alloc, &BYTES)?))
}

// The bytes as the digits of one number.
fn number_of(bytes: &[u8]) -> u128 {
    let mut number = 0;
    for byte in bytes {
        number = number << 8 | u128::from(*byte);
    }
    number
}

// Whether the cell has a form that a field may have.
fn is_formed(cell: &Cell) -> bool
    ensures { OnTrue result (IsFieldCell cell.now) }
{
    if cell.bytewise {
        matches!(cell.width, 8 | 16 | 32 | 64) && cell.bit % 8 == 0
    } else {
        matches!(cell.width, 1..=32)
    }
}

// Whether an image of so many bytes has the cell.
pub fn is_cell(length: u64, cell: &Cell) -> bool
    ensures { OnTrue result (IsFieldCell cell.now × cell.now.bit + cell.now.width ≤ 8 * length) }
{
    let whole = length.saturating_mul(8);
    is_formed(cell) && cell.bit <= whole && u64::from(cell.width) <= whole - cell.bit
}

// Whether a number fits so many bits.
pub fn fits(number: u64, width: u8) -> bool
    ensures { OnTrue result (number < 2 ^ width) }
{
    width == 64 || width < 64 && number >> width == 0
}

// Whether the cell has the value, and then the other one, and nothing else of the image changes.
fn holds(alloc: Global, cell: &Cell, row: &Row) -> Result<bool, NoMemory> {
    let (_, _, value, other, after) = *row;
    let mut image = image(alloc)?;
    if !is_cell(image.len(), cell) || !fits(other, cell.width) {
        return Ok(false);
    }
    let before = image.get(cell);
    image.put(cell, other);
    let put = image.get(cell);
    Ok(before == value && put == other && number_of(&image.into_bytes()) == after)
}

fn all_hold(alloc: Global, rows: &[Row], bytewise: bool, order: Order) -> bool {
    for row in rows {
        let cell = Cell {
            bit: row.0,
            width: row.1,
            bytewise,
            order,
        };
        if !holds(alloc, &cell, row).unwrap_or(false) {
            return false;
        }
    }
    true
}

pub fn hold_what_is_put(alloc: Global) -> bool {
    all_hold(alloc, &LITTLE, true, Order::Little)
        && all_hold(alloc, &BIG, true, Order::Big)
        && all_hold(alloc, &BITS, false, Order::Little)
        && all_hold(alloc, &BITS, false, Order::Big)
        && two_puts_hold(alloc).unwrap_or(false)
}

// Whether the image tells its bytes one after the other.
fn tells_bytes(image: &Whole) -> bool {
    for at in 0..image.len() {
        if BYTES.get(at as usize) != Some(&image.byte(at)) {
            return false;
        }
    }
    image.len() == 10
}

fn claims(image: &mut Whole) -> bool
    requires { length image.old ≡ 10 }
    ensures { image.new ≡ image.old }
{
    image.claim(0, 10).is_ok() && image.claim(3, 4).is_ok() && image.claim(10, 0).is_ok()
}

// Whether the bytes are told, and are left as they were by claims.
pub fn bytes_stay(alloc: Global) -> Result<bool, NoMemory> {
    let mut image = image(alloc)?;
    let is_claimed = tells_bytes(&image) && claims(&mut image);
    Ok(is_claimed && image.into_bytes().as_slice() == BYTES.as_slice())
}

// Two puts into cells of any image that share no bit, and what both hold then.
fn put_both<I: ImageBytes>(image: &mut I, a: &Cell, b: &Cell, v: u64, w: u64) -> (u64, u64)
    requires a { IsCellOf (I.bytes image.old) a.now }
    requires b { IsCellOf (I.bytes image.old) b.now }
    requires apart { AreCellsApart a.now b.now }
    requires a_claimed { IsCellClaimed (I.claimed image.old) a.now }
    requires b_claimed { IsCellClaimed (I.claimed image.old) b.now }
    requires a_fits { v < 2 ^ a.now.width }
    requires b_fits { w < 2 ^ b.now.width }
    ensures first { result.0 ≡ v }
    ensures second { result.1 ≡ w }
{
    image.put(a, v);
    image.put(b, w);
    (image.get(a), image.get(b))
}

fn two_puts_hold(alloc: Global) -> Result<bool, NoMemory> {
    let mut image = image(alloc)?;
    let low = Cell {
        bit: 16,
        width: 16,
        bytewise: true,
        order: Order::Big,
    };
    let high = Cell {
        bit: 32,
        width: 3,
        bytewise: false,
        order: Order::Big,
    };
    Ok(put_both(&mut image, &low, &high, 258, 5) == (258, 5))
}
