// An image, as those see it who read and write its cells.
use dsr_ir::{Cell, NoMemory};

/// The bytes of an image. Contracts see the list of the bytes, and for each of them whether it is
/// claimed: whether there is room to write it.
pub trait ImageBytes {
    ghost use Rattle.std.specs.Prelude.{◌≡◌, ◌≤◌, ◌<◌, ◌+◌, ◌^◌, ℕ, List, Bool, length, slice_index, OnOk, OnErr};
    ghost use Rattle.dsr_meaning.specs.Cells.{IsCellOf, cell_value};
    ghost use Rattle.dsr_meaning.specs.Writes.{AreBytes, BesideStay, Puts};
    ghost use Rattle.dsr_image.specs.Images.{AreClaimed, IsCellClaimed, StayClaimed};

    ghost bytes: { Self → List ℕ };

    ghost claimed: { Self → ℕ → Bool };

    /// How many bytes there are.
    fn len(&self) -> u64
        ensures count { result ≡ length (bytes self.now) }
        ensures bytes { AreBytes (bytes self.now) };

    /// The byte at a place, counted from 0.
    fn byte(&self, at: u64) -> u8
        requires { at < length (bytes self.now) }
        ensures { result ≡ slice_index (bytes self.now) at };

    /// The value of a cell of the image.
    fn get(&self, cell: &Cell) -> u64
        requires { IsCellOf (bytes self.now) cell.now }
        ensures value { result ≡ cell_value (bytes self.now) cell.now }
        ensures fits { result < 2 ^ cell.now.width };

    /// Makes room to write so many bytes from a place on, or answers `NoMemory`, which it doesn't
    /// where all of them are claimed already.
    fn claim(&mut self, at: u64, count: u64) -> Result<(), NoMemory>
        requires { at + count ≤ length (bytes self.old) }
        ensures bytes { bytes self.new ≡ bytes self.old }
        ensures claimed { OnOk result (AreClaimed (claimed self.new) at count) }
        ensures needed { OnErr result (AreClaimed (claimed self.old) at count → ⊥) }
        ensures kept { StayClaimed (claimed self.old) (claimed self.new) };

    /// Writes a value into a cell whose bytes are claimed.
    fn put(&mut self, cell: &Cell, value: u64)
        requires cell { IsCellOf (bytes self.old) cell.now }
        requires claimed { IsCellClaimed (claimed self.old) cell.now }
        requires fits { value < 2 ^ cell.now.width }
        ensures put { Puts cell.now value (bytes self.old) (bytes self.new) }
        ensures beside { BesideStay cell.now (bytes self.old) (bytes self.new) }
        ensures bytes { AreBytes (bytes self.new) }
        ensures kept { claimed self.new ≡ claimed self.old };
}
