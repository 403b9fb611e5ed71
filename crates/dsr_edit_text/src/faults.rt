// Why a text is no script.
ghost use Rattle.std.specs.Prelude.{◌≡◌};

use dsr_ir::NoMemory;
use std::alloc::{AllocError, AllocFailed};
use thiserror::Error;

/// Why a text wasn't read.
#[derive(Debug, Drop, Error)]
pub enum ScriptFault {
    /// The first line that isn't of the form, counted from 1; one more than there are lines, where
    /// the text ends inside a group.
    #[error("line {0} isn't what is asked for")]
    Line(u64),
    /// The allocator had no memory left.
    #[error("no memory left")]
    NoMemory,
}

impl From<NoMemory> for ScriptFault {
    ghost use Rattle.dsr_edit_text.specs.declared.faults.ScriptFault.TheVariants as faults;

    ghost from_gives = { λ _ e. e ≡ faults.NoMemory };

    fn from(_: NoMemory) -> Self {
        ScriptFault::NoMemory
    }
}

impl From<AllocError> for ScriptFault {
    ghost use Rattle.dsr_edit_text.specs.declared.faults.ScriptFault.TheVariants as faults;

    ghost from_gives = { λ _ e. e ≡ faults.NoMemory };

    fn from(_: AllocError) -> Self {
        ScriptFault::NoMemory
    }
}

impl<T: Drop> From<AllocFailed<T>> for ScriptFault {
    ghost use Rattle.dsr_edit_text.specs.declared.faults.ScriptFault.TheVariants as faults;

    ghost from_gives = { λ _ e. e ≡ faults.NoMemory };

    fn from(_: AllocFailed<T>) -> Self {
        ScriptFault::NoMemory
    }
}
