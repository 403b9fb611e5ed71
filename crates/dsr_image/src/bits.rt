// Ranges of bits, by whole bytes and masks.
ghost use Rattle.byteorder.specs.Endian.{little_bytes, little_number};
ghost use Rattle.std.specs.Prelude.{◌≡◌, ◌≤◌, ◌<◌, ◌+◌, ◌*◌, ◌^◌, ◌++◌, drop, length};
ghost use Rattle.dsr_meaning.specs.Cells.{bits_value};
ghost use Rattle.dsr_meaning.specs.Writes.{OthersStay};

use byteorder::{ByteOrder, LittleEndian};

// How many bytes are read and written for bits that lie in `count` of them: eight where so many are
// left, since that is one load and one store, and else no more than needed.
fn reach(count: usize, behind: usize) -> usize
    requires few { count ≤ 8 }
    requires there { count ≤ behind }
    ensures enough { count ≤ result }
    ensures few { result ≤ 8 }
    ensures there { result ≤ behind }
{
    if behind >= 8 { 8 } else { count }
}

// The number of the first bytes.
fn read_bytes(bytes: &[u8], count: usize) -> u64
    requires some { 1 ≤ count }
    requires few { count ≤ 8 }
    requires there { count ≤ length bytes.now }
    ensures { result ≡ little_number count bytes.now }
{
    if count == 8 {
        LittleEndian::read_u64(bytes)
    } else {
        LittleEndian::read_uint(bytes, count)
    }
}

fn write_bytes(bytes: &mut [u8], number: u64, count: usize)
    requires some { 1 ≤ count }
    requires few { count ≤ 8 }
    requires there { count ≤ length bytes.old }
    requires fits { number < 256 ^ count }
    ensures { bytes.new ≡ little_bytes count number ++ drop count bytes.old }
{
    if count == 8 {
        LittleEndian::write_u64(bytes, number);
    } else {
        LittleEndian::write_uint(bytes, number, count);
    }
}

/// The number of so many bits from a bit on, the first of them the least.
pub fn get_bits(bytes: &[u8], bit: usize, width: u32) -> u64
    requires some { 1 ≤ width }
    requires few { width ≤ 32 }
    requires within { bit + width ≤ 8 * length bytes.now }
    ensures value { result ≡ bits_value bytes.now bit width }
    ensures fits { result < 2 ^ width }
{
    let (first, shift) = (bit / 8, (bit % 8) as u32);
    let count = reach((shift + width).div_ceil(8) as usize, bytes.len() - first);
    let number = read_bytes(&bytes[first..], count);
    number >> shift & ((1 << width) - 1)
}

/// Writes a number into so many bits from a bit on, and leaves every other bit.
pub fn put_bits(bytes: &mut [u8], bit: usize, width: u32, value: u64)
    requires some { 1 ≤ width }
    requires few { width ≤ 32 }
    requires within { bit + width ≤ 8 * length bytes.old }
    requires fits { value < 2 ^ width }
    ensures length { length bytes.new ≡ length bytes.old }
    ensures got { bits_value bytes.new bit width ≡ value }
    ensures others { OthersStay bit width bytes.old bytes.new }
{
    let (first, shift) = (bit / 8, (bit % 8) as u32);
    let count = reach((shift + width).div_ceil(8) as usize, bytes.len() - first);
    let mask = ((1 << width) - 1) << shift;
    let number = read_bytes(&bytes[first..], count);
    let changed = number & !mask | value << shift;
    write_bytes(&mut bytes[first..first + count], changed, count);
}
