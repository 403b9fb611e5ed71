// Want of memory, and copies that may meet it.
ghost use Rattle.std.specs.Prelude.{◌≡◌, IfOk};

use std::alloc::{AllocError, AllocFailed, Global};

/// The allocator had no memory left.
#[derive(Clone, Copy, Debug)]
pub struct NoMemory;

impl From<AllocError> for NoMemory {
    fn from(_: AllocError) -> Self {
        NoMemory
    }
}

impl<T: Drop> From<AllocFailed<T>> for NoMemory {
    fn from(_: AllocFailed<T>) -> Self {
        NoMemory
    }
}

/// A value that can be copied where there is memory for it.
pub trait TryClone {
    ghost use Rattle.std.specs.Prelude.{◌≡◌, IfOk};

    /// A value equal to this one, or `NoMemory`.
    fn clone(&self, alloc: Global) -> Result<Self, NoMemory>
        ensures { IfOk result (λ copy. copy ≡ self.now) };
}

impl<T: Copy> TryClone for T {
    fn clone(&self, _alloc: Global) -> Result<T, NoMemory> {
        Ok(*self)
    }
}
