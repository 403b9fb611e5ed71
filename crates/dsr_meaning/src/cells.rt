// A plain, slow program for the value of a cell: what it computes is the definition.
ghost use Rattle.std.specs.Prelude.{◌≡◌, ◌<◌, ◌≤◌, ◌+◌, ◌*◌, ◌^◌, length};
ghost use Rattle.dsr_meaning.specs.Cells.{bit_of, bits_value, bytes_value, cell_value};

use dsr_ir::{Cell, Order};

fn bit_at(bytes: &[u8], bit: usize) -> u64
    requires { bit < 8 * length bytes.now }
    ensures value { result ≡ bit_of bytes.now bit }
    ensures small { result ≤ 1 }
{
    u64::from(bytes[bit / 8] >> (bit % 8) & 1)
}

fn bits_at(bytes: &[u8], bit: usize, width: usize) -> u64
    requires image { length bytes.now ≤ 2 ^ 26 }
    requires within { bit + width ≤ 8 * length bytes.now }
    requires small { width ≤ 64 }
    ensures value { result ≡ bits_value bytes.now bit width }
    ensures small { result < 2 ^ width }
{
    if width == 0 {
        return 0;
    }
    bit_at(bytes, bit) + 2 * bits_at(bytes, bit + 1, width - 1)
}

fn little_at(bytes: &[u8], at: usize, count: usize) -> u64
    requires within { at + count ≤ length bytes.now }
    requires small { count ≤ 8 }
    ensures value { result ≡ bytes_value Order.Little bytes.now at count }
    ensures small { result < 256 ^ count }
{
    if count == 0 {
        return 0;
    }
    u64::from(bytes[at]) + 256 * little_at(bytes, at + 1, count - 1)
}

// The number of the bytes behind those that make up the number before them.
fn big_after(bytes: &[u8], at: usize, count: usize, before: u64) -> u64
    requires within { at + count ≤ length bytes.now }
    requires small { before * 256 ^ count + 256 ^ count ≤ 2 ^ 64 }
    ensures { result ≡ before * 256 ^ count + bytes_value Order.Big bytes.now at count }
{
    if count == 0 {
        return before;
    }
    big_after(
        bytes,
        at + 1,
        count - 1,
        before * 256 + u64::from(bytes[at]),
    )
}

/// The value of a cell of an image of at most 67,108,864 bytes, bit by bit or byte by byte.
pub fn value_of_cell(bytes: &[u8], cell: &Cell) -> u64
    requires image { length bytes.now ≤ 2 ^ 26 }
    requires within { cell.now.bit + cell.now.width ≤ 8 * length bytes.now }
    requires small { cell.now.width ≤ 64 }
    ensures { result ≡ cell_value bytes.now cell.now }
{
    let (bit, width) = (cell.bit as usize, usize::from(cell.width));
    if !cell.bytewise {
        return bits_at(bytes, bit, width);
    }
    match cell.order {
        Order::Little => little_at(bytes, bit / 8, width / 8),
        Order::Big => big_after(bytes, bit / 8, width / 8, 0),
    }
}
