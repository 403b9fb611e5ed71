// Why a text is no report.
ghost use Rattle.std.specs.Prelude.{◌≡◌};

use dsr_ir::NoMemory;
use std::alloc::{AllocError, AllocFailed};
use thiserror::Error;

/// Why a text wasn't read.
#[derive(Debug, Drop, Error)]
pub enum ReadFault {
    /// The first line that isn't of the form, counted from 1.
    #[error("line {0} isn't what is asked for")]
    Line(u64),
    /// The allocator had no memory left.
    #[error("no memory left")]
    NoMemory,
}

impl From<NoMemory> for ReadFault {
    ghost use Rattle.dsr_report_read.specs.declared.faults.ReadFault.TheVariants as faults;

    ghost from_gives = { λ _ e. e ≡ faults.NoMemory };

    fn from(_: NoMemory) -> Self {
        ReadFault::NoMemory
    }
}

impl From<AllocError> for ReadFault {
    ghost use Rattle.dsr_report_read.specs.declared.faults.ReadFault.TheVariants as faults;

    ghost from_gives = { λ _ e. e ≡ faults.NoMemory };

    fn from(_: AllocError) -> Self {
        ReadFault::NoMemory
    }
}

impl<T: Drop> From<AllocFailed<T>> for ReadFault {
    ghost use Rattle.dsr_report_read.specs.declared.faults.ReadFault.TheVariants as faults;

    ghost from_gives = { λ _ e. e ≡ faults.NoMemory };

    fn from(_: AllocFailed<T>) -> Self {
        ReadFault::NoMemory
    }
}
