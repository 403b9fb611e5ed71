// A cell in the bytes from the one on in which it begins.
ghost use Rattle.std.specs.Prelude.{◌≡◌, ◌≤◌, ◌<◌, ◌+◌, ◌*◌, ◌/◌, ◌%◌, ◌^◌, length, min};
ghost use Rattle.byteorder.specs.Endian.{little_number};
ghost use Rattle.dsr_ir.specs.declared.declarations.Order.{Order};
ghost use Rattle.dsr_meaning.specs.Cells.{IsByteWidth, IsFieldCell, bits_value, bytes_value, cell_value};
ghost use Rattle.dsr_meaning.specs.Writes.{OthersStay, Puts};
ghost use Rattle.dsr_overlay.specs.Overlays.{at_front};

use byteorder::{BigEndian, ByteOrder, LittleEndian};
use dsr_ir::{Cell, Order};

/// How many bytes have a bit of the cell.
pub fn span(cell: &Cell) -> usize
    requires { IsFieldCell cell.now }
    ensures enough { cell.now.bit % 8 + cell.now.width ≤ 8 * result }
    ensures some { 1 ≤ result }
    ensures few { result ≤ 8 }
    ensures least { 8 * result < cell.now.bit % 8 + cell.now.width + 8 }
{
    ((cell.bit % 8) as usize + usize::from(cell.width)).div_ceil(8)
}

/// The value of a cell that begins in the first of these bytes.
pub fn front_value(bytes: &[u8], cell: &Cell) -> u64
    requires cell { IsFieldCell cell.now }
    requires within { cell.now.bit % 8 + cell.now.width ≤ 8 * length bytes.now }
    ensures value { result ≡ cell_value bytes.now (at_front cell.now) }
    ensures fits { result < 2 ^ cell.now.width }
{
    if !cell.bytewise {
        return front_bits(bytes, (cell.bit % 8) as u32, u32::from(cell.width));
    }
    match cell.order {
        Order::Little => front_little(bytes, cell.width),
        Order::Big => front_big(bytes, cell.width),
    }
}

// The number of the first bytes, eight at most.
fn front_number(bytes: &[u8]) -> u64
    requires { 1 ≤ length bytes.now }
    ensures { result ≡ little_number (min 8 (length bytes.now)) bytes.now }
{
    if bytes.len() >= 8 {
        LittleEndian::read_u64(bytes)
    } else {
        LittleEndian::read_uint(bytes, bytes.len())
    }
}

fn front_bits(bytes: &[u8], shift: u32, width: u32) -> u64
    requires shift { shift < 8 }
    requires some { 1 ≤ width }
    requires few { width ≤ 32 }
    requires within { shift + width ≤ 8 * length bytes.now }
    ensures value { result ≡ bits_value bytes.now shift width }
    ensures fits { result < 2 ^ width }
{
    let number = front_number(bytes);
    number >> shift & ((1 << width) - 1)
}

fn front_little(bytes: &[u8], width: u8) -> u64
    requires form { IsByteWidth width }
    requires within { width ≤ 8 * length bytes.now }
    ensures value { result ≡ bytes_value Order.Little bytes.now 0 (width / 8) }
    ensures fits { result < 2 ^ width }
{
    match width {
        8 => u64::from(bytes[0]),
        16 => u64::from(LittleEndian::read_u16(bytes)),
        32 => u64::from(LittleEndian::read_u32(bytes)),
        _ => LittleEndian::read_u64(bytes),
    }
}

fn front_big(bytes: &[u8], width: u8) -> u64
    requires form { IsByteWidth width }
    requires within { width ≤ 8 * length bytes.now }
    ensures value { result ≡ bytes_value Order.Big bytes.now 0 (width / 8) }
    ensures fits { result < 2 ^ width }
{
    match width {
        8 => u64::from(bytes[0]),
        16 => u64::from(BigEndian::read_u16(bytes)),
        32 => u64::from(BigEndian::read_u32(bytes)),
        _ => BigEndian::read_u64(bytes),
    }
}

/// Puts a value into a cell that begins in the first of these bytes.
pub fn put_front(bytes: &mut [u8; 8], cell: &Cell, value: u64)
    requires cell { IsFieldCell cell.now }
    requires fits { value < 2 ^ cell.now.width }
    ensures { Puts (at_front cell.now) value bytes.old bytes.new }
{
    if !cell.bytewise {
        put_bits(bytes, (cell.bit % 8) as u32, u32::from(cell.width), value);
    } else {
        match cell.order {
            Order::Little => put_little(bytes, usize::from(cell.width / 8), value),
            Order::Big => put_big(bytes, usize::from(cell.width / 8), value),
        }
    }
}

fn put_bits(bytes: &mut [u8; 8], shift: u32, width: u32, value: u64)
    requires shift { shift < 8 }
    requires width { width ≤ 32 }
    requires fits { value < 2 ^ width }
    ensures got { bits_value bytes.new shift width ≡ value }
    ensures others { OthersStay shift width bytes.old bytes.new }
{
    let mask = ((1 << width) - 1) << shift;
    let number = LittleEndian::read_u64(bytes);
    LittleEndian::write_u64(bytes, number & !mask | value << shift);
}

fn put_little(bytes: &mut [u8; 8], count: usize, value: u64)
    requires some { 1 ≤ count }
    requires few { count ≤ 8 }
    requires fits { value < 256 ^ count }
    ensures got { bytes_value Order.Little bytes.new 0 count ≡ value }
    ensures others { OthersStay 0 (8 * count) bytes.old bytes.new }
{
    LittleEndian::write_uint(bytes, value, count);
}

fn put_big(bytes: &mut [u8; 8], count: usize, value: u64)
    requires some { 1 ≤ count }
    requires few { count ≤ 8 }
    requires fits { value < 256 ^ count }
    ensures got { bytes_value Order.Big bytes.new 0 count ≡ value }
    ensures others { OthersStay 0 (8 * count) bytes.old bytes.new }
{
    BigEndian::write_uint(bytes, value, count);
}
