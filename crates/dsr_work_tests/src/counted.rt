// An image that counts how often it is read.
ghost use Rattle.std.specs.Prelude.{◌≡◌};

use dsr_image::{ImageBytes, Whole};
use dsr_ir::{Cell, NoMemory};
use std::cell;
use std::marker::Model;

/// An image that counts the calls that read a cell or a byte of it.
#[derive(Drop)]
pub struct Counted {
    image: Whole,
    reads: cell::Cell<u64>,
}

impl Model for Counted {
    ghost use Rattle.std.specs.Prelude.{ℕ, List};

    ghost Value = { List ℕ };

    ghost view = { λ c. c.image };
}

impl Counted {
    /// The image of these bytes, not read yet.
    pub fn new(bytes: Vec<u8>) -> Counted
        ensures { result ≡ bytes.items }
    {
        Counted {
            image: Whole::new(bytes),
            reads: cell::Cell::new(0),
        }
    }

    /// How often it was read.
    pub fn reads(&self) -> u64 {
        self.reads.get()
    }

    fn count(&self) {
        self.reads.set(self.reads.get().saturating_add(1));
    }
}

impl ImageBytes for Counted {
    ghost use Rattle.std.specs.Prelude.{true};

    ghost bytes = { λ c. c };

    ghost claimed = { λ c at. true };

    fn len(&self) -> u64 {
        self.image.len()
    }

    fn byte(&self, at: u64) -> u8 {
        self.count();
        self.image.byte(at)
    }

    fn get(&self, cell: &Cell) -> u64 {
        self.count();
        self.image.get(cell)
    }

    fn claim(&mut self, at: u64, count: u64) -> Result<(), NoMemory> {
        self.image.claim(at, count)
    }

    fn put(&mut self, cell: &Cell, value: u64) {
        self.image.put(cell, value);
    }
}
