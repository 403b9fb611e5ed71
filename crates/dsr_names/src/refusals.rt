// Why a specification is refused.
ghost use Rattle.std.specs.Prelude.{◌≡◌};

use dsr_ir::NoMemory;
use thiserror::Error;

/// Why a specification whose text is one of the grammar is refused.
#[derive(Debug, Drop, Error)]
pub enum SpecFault {
    /// A condition holds under which specifications are refused.
    #[error("refused by condition {kind} at byte {place}")]
    At {
        /// The number of the condition, from 1 to 13.
        kind: u8,
        /// Bytes from the start of the text.
        place: u64,
    },
    /// The allocator had no memory left.
    #[error("no memory left")]
    NoMemory,
}

impl From<NoMemory> for SpecFault {
    ghost use Rattle.dsr_names.specs.declared.refusals.SpecFault.TheVariants as faults;

    ghost from_gives = { λ _ e. e ≡ faults.NoMemory };

    fn from(_: NoMemory) -> Self {
        SpecFault::NoMemory
    }
}
