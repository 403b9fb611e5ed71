// Why an image has no layout.
ghost use Rattle.std.specs.Prelude.{◌≡◌};

use dsr_ir::NoMemory;
use std::alloc::AllocFailed;

/// Why an image has no layout under a specification, or that this couldn't be found out. Pools
/// are counted from 1, structures, fields and constraints from 0.
#[derive(Clone, Copy, PartialEq, Eq)]
pub enum LayoutFault {
    /// The image ends before the last fixed field does, or before `Head` does.
    Short,
    /// An expression, the size of a structure in bits, the end of a pool or its last code has no
    /// value from 0 to 2^64 - 1.
    Arith,
    /// The pool ends behind the image.
    Outside(u32),
    /// The bytes of the two pools share a byte; 0 is the head.
    Overlap(u32, u32),
    /// The structure, by which slots of the pool are read, is larger than a slot.
    Subtype(u32, u32),
    /// The pool's step or the bytes of a slot are 0.
    Zero(u32),
    /// The pool's code of no slot is the code of a slot.
    NoneIsCode(u32),
    /// The pool's code of no slot or its last code doesn't fit a reference to it: a field of the
    /// structure.
    CodeTooWide(u32, u32, u32),
    /// The constraint compares values with a size that may not fit the field that gives a value.
    CountTooWide(u32),
    /// The rules and constraints have too many instances.
    Instances,
    /// The allocator had no memory left.
    NoMemory,
}

impl From<NoMemory> for LayoutFault {
    ghost use Rattle.dsr_layout.specs.declared.faults.LayoutFault.TheVariants as faults;

    ghost from_gives = { λ _ e. e ≡ faults.NoMemory };

    fn from(_: NoMemory) -> Self {
        LayoutFault::NoMemory
    }
}

impl<T: Drop> From<AllocFailed<T>> for LayoutFault {
    ghost use Rattle.dsr_layout.specs.declared.faults.LayoutFault.TheVariants as faults;

    ghost from_gives = { λ _ e. e ≡ faults.NoMemory };

    fn from(_: AllocFailed<T>) -> Self {
        LayoutFault::NoMemory
    }
}
