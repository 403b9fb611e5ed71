// Why a report isn't that of a repair.
ghost use Rattle.std.specs.Prelude.{◌≡◌};

use dsr_ir::NoMemory;
use thiserror::Error;

/// Why a report isn't that of a repair which leads from one image to another.
#[derive(Debug, Drop, Error)]
pub enum AuditFault {
    /// The number of the first entry, counted from 1, that doesn't tell the step which is due.
    #[error("entry {0} doesn't tell the step that is due")]
    Entry(u64),
    /// How many entries there are. All tell the step that is due, and behind them the image isn't
    /// consistent.
    #[error("the image isn't consistent after {0} entries")]
    Short(u64),
    /// The first place, counted from 0, in which the bytes that are reached and those that are given
    /// differ; where one of both ends there, its length.
    #[error("the byte at place {0} differs")]
    Fixed(u64),
    /// The allocator had no memory left.
    #[error("no memory left")]
    NoMemory,
}

impl From<NoMemory> for AuditFault {
    ghost use Rattle.dsr_replay.specs.declared.faults.AuditFault.TheVariants as faults;

    ghost from_gives = { λ _ e. e ≡ faults.NoMemory };

    fn from(_: NoMemory) -> Self {
        AuditFault::NoMemory
    }
}
