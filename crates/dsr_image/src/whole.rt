// An image that is held whole.
ghost use Rattle.std.specs.Prelude.{◌≡◌, ◌<◌, ◌^◌, IsOk};
ghost use Rattle.dsr_meaning.specs.Cells.{IsCellOf, cell_value};
ghost use Rattle.dsr_meaning.specs.Writes.{AreBytes, BesideStay, Puts};

use crate::ImageBytes;
use crate::bits::{get_bits, put_bits};
use crate::numbers::{get_number, put_number};
use dsr_ir::{Cell, NoMemory};
use std::marker::Model;

/// The bytes of an image, all of them claimed from the start.
#[derive(Drop)]
pub struct Whole {
    bytes: Vec<u8>,
}

impl Model for Whole {
    ghost use Rattle.std.specs.Prelude.{ℕ, List};

    ghost Value = { List ℕ };

    ghost view = { λ w. w.bytes.items };
}

impl Whole {
    /// The image of these bytes.
    pub fn new(bytes: Vec<u8>) -> Whole
        ensures { result ≡ bytes.items }
    {
        Whole { bytes }
    }

    /// The bytes.
    pub fn into_bytes(self) -> Vec<u8>
        ensures { result.items ≡ self }
    {
        self.bytes
    }
}

fn get_cell(bytes: &[u8], cell: &Cell) -> u64
    requires { IsCellOf bytes.now cell.now }
    ensures value { result ≡ cell_value bytes.now cell.now }
    ensures fits { result < 2 ^ cell.now.width }
{
    let bit = cell.bit as usize;
    if cell.bytewise {
        get_number(bytes, bit / 8, cell.width, cell.order)
    } else {
        get_bits(bytes, bit, u32::from(cell.width))
    }
}

fn write_cell(bytes: &mut [u8], cell: &Cell, value: u64)
    requires cell { IsCellOf bytes.old cell.now }
    requires fits { value < 2 ^ cell.now.width }
    ensures put { Puts cell.now value bytes.old bytes.new }
    ensures before { AreBytes bytes.old }
    ensures after { AreBytes bytes.new }
{
    let bit = cell.bit as usize;
    if cell.bytewise {
        put_number(bytes, bit / 8, cell.width, cell.order, value);
    } else {
        put_bits(bytes, bit, u32::from(cell.width), value);
    }
}

// What is beside the cell follows from what a write leaves.
fn put_cell(bytes: &mut [u8], cell: &Cell, value: u64)
    requires cell { IsCellOf bytes.old cell.now }
    requires fits { value < 2 ^ cell.now.width }
    ensures put { Puts cell.now value bytes.old bytes.new }
    ensures beside { BesideStay cell.now bytes.old bytes.new }
    ensures after { AreBytes bytes.new }
{
    write_cell(bytes, cell, value);
}

impl ImageBytes for Whole {
    ghost use Rattle.std.specs.Prelude.{true};

    ghost bytes = { λ w. w };

    ghost claimed = { λ w at. true };

    fn len(&self) -> u64 {
        let bytes: &[u8] = &self.bytes;
        bytes.len() as u64
    }

    fn byte(&self, at: u64) -> u8 {
        self.bytes[at as usize]
    }

    fn get(&self, cell: &Cell) -> u64 {
        get_cell(&self.bytes, cell)
    }

    /// Always succeeds.
    fn claim(&mut self, _at: u64, _count: u64) -> Result<(), NoMemory>
        ensures always { IsOk result }
        ensures bytes { self.new ≡ self.old }
    {
        Ok(())
    }

    fn put(&mut self, cell: &Cell, value: u64) {
        put_cell(&mut self.bytes, cell, value);
    }
}
