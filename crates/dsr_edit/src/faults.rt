// Why an image can't be edited, or a group of writes isn't made.
ghost use Rattle.std.specs.Prelude.{◌≡◌};

use dsr_ir::{Binding, NoMemory};
use std::alloc::{AllocError, AllocFailed};

/// Why no session begins.
#[derive(Drop)]
pub enum OpenFault {
    /// The image isn't consistent: all its violated bindings, each with the number of its constraint,
    /// constraints in order of declaration and the bindings of each least first.
    Violated(Vec<(u32, Binding)>),
    /// The allocator had no memory left.
    NoMemory,
}

/// Why a group of writes isn't made.
#[derive(Clone, Copy, Drop)]
pub enum EditFault {
    /// The first write, counted from 0, that names no cell or a fixed field, or whose value is too wide
    /// for its cell.
    Cell(u64),
    /// After the writes the image wouldn't be consistent: the number of the first constraint that would
    /// be violated, with the least of its violated bindings.
    Broken(u32, Binding),
    /// The allocator had no memory left.
    NoMemory,
}

impl From<NoMemory> for OpenFault {
    ghost use Rattle.dsr_edit.specs.declared.faults.OpenFault.TheVariants as faults;

    ghost from_gives = { λ _ e. e ≡ faults.NoMemory };

    fn from(_: NoMemory) -> Self {
        OpenFault::NoMemory
    }
}

impl From<NoMemory> for EditFault {
    ghost use Rattle.dsr_edit.specs.declared.faults.EditFault.TheVariants as faults;

    ghost from_gives = { λ _ e. e ≡ faults.NoMemory };

    fn from(_: NoMemory) -> Self {
        EditFault::NoMemory
    }
}

impl From<AllocError> for EditFault {
    ghost use Rattle.dsr_edit.specs.declared.faults.EditFault.TheVariants as faults;

    ghost from_gives = { λ _ e. e ≡ faults.NoMemory };

    fn from(_: AllocError) -> Self {
        EditFault::NoMemory
    }
}

impl<T: Drop> From<AllocFailed<T>> for EditFault {
    ghost use Rattle.dsr_edit.specs.declared.faults.EditFault.TheVariants as faults;

    ghost from_gives = { λ _ e. e ≡ faults.NoMemory };

    fn from(_: AllocFailed<T>) -> Self {
        EditFault::NoMemory
    }
}
