// Numbers of whole bytes, in either order.
ghost use Rattle.std.specs.Prelude.{◌≡◌, ◌≤◌, ◌<◌, ◌+◌, ◌*◌, ◌/◌, ◌^◌, length};
ghost use Rattle.dsr_ir.specs.declared.declarations.Order.{Order};
ghost use Rattle.dsr_meaning.specs.Cells.{IsByteWidth, bytes_value};
ghost use Rattle.dsr_meaning.specs.Writes.{OthersStay};

use byteorder::{BigEndian, ByteOrder, LittleEndian};
use dsr_ir::Order;

/// The number of so many bits in the bytes from one on.
pub fn get_number(bytes: &[u8], at: usize, width: u8, order: Order) -> u64
    requires form { IsByteWidth width }
    requires within { at + width / 8 ≤ length bytes.now }
    ensures value { result ≡ bytes_value order bytes.now at (width / 8) }
    ensures fits { result < 2 ^ width }
{
    match order {
        Order::Little => get_little(bytes, at, width),
        Order::Big => get_big(bytes, at, width),
    }
}

fn get_little(bytes: &[u8], at: usize, width: u8) -> u64
    requires form { IsByteWidth width }
    requires within { at + width / 8 ≤ length bytes.now }
    ensures value { result ≡ bytes_value Order.Little bytes.now at (width / 8) }
    ensures fits { result < 2 ^ width }
{
    match width {
        8 => u64::from(bytes[at]),
        16 => u64::from(LittleEndian::read_u16(&bytes[at..])),
        32 => u64::from(LittleEndian::read_u32(&bytes[at..])),
        _ => LittleEndian::read_u64(&bytes[at..]),
    }
}

fn get_big(bytes: &[u8], at: usize, width: u8) -> u64
    requires form { IsByteWidth width }
    requires within { at + width / 8 ≤ length bytes.now }
    ensures value { result ≡ bytes_value Order.Big bytes.now at (width / 8) }
    ensures fits { result < 2 ^ width }
{
    match width {
        8 => u64::from(bytes[at]),
        16 => u64::from(BigEndian::read_u16(&bytes[at..])),
        32 => u64::from(BigEndian::read_u32(&bytes[at..])),
        _ => BigEndian::read_u64(&bytes[at..]),
    }
}

/// Writes a number of so many bits into the bytes from one on, and leaves every other bit.
pub fn put_number(bytes: &mut [u8], at: usize, width: u8, order: Order, value: u64)
    requires form { IsByteWidth width }
    requires within { at + width / 8 ≤ length bytes.old }
    requires fits { value < 2 ^ width }
    ensures length { length bytes.new ≡ length bytes.old }
    ensures got { bytes_value order bytes.new at (width / 8) ≡ value }
    ensures others { OthersStay (8 * at) width bytes.old bytes.new }
{
    match order {
        Order::Little => put_little(bytes, at, width, value),
        Order::Big => put_big(bytes, at, width, value),
    }
}

fn put_little(bytes: &mut [u8], at: usize, width: u8, value: u64)
    requires form { IsByteWidth width }
    requires within { at + width / 8 ≤ length bytes.old }
    requires fits { value < 2 ^ width }
    ensures length { length bytes.new ≡ length bytes.old }
    ensures got { bytes_value Order.Little bytes.new at (width / 8) ≡ value }
    ensures others { OthersStay (8 * at) width bytes.old bytes.new }
{
    match width {
        8 => bytes[at] = value as u8,
        16 => LittleEndian::write_u16(&mut bytes[at..at + 2], value as u16),
        32 => LittleEndian::write_u32(&mut bytes[at..at + 4], value as u32),
        _ => LittleEndian::write_u64(&mut bytes[at..at + 8], value),
    }
}

fn put_big(bytes: &mut [u8], at: usize, width: u8, value: u64)
    requires form { IsByteWidth width }
    requires within { at + width / 8 ≤ length bytes.old }
    requires fits { value < 2 ^ width }
    ensures length { length bytes.new ≡ length bytes.old }
    ensures got { bytes_value Order.Big bytes.new at (width / 8) ≡ value }
    ensures others { OthersStay (8 * at) width bytes.old bytes.new }
{
    match width {
        8 => bytes[at] = value as u8,
        16 => BigEndian::write_u16(&mut bytes[at..at + 2], value as u16),
        32 => BigEndian::write_u32(&mut bytes[at..at + 4], value as u32),
        _ => BigEndian::write_u64(&mut bytes[at..at + 8], value),
    }
}
