// Why a formula has no normal form.
ghost use Rattle.std.specs.Prelude.{◌≡◌};

use dsr_ir::NoMemory;
use thiserror::Error;

/// Why a formula has no normal form.
#[derive(Debug, Drop, Error)]
pub enum NormalFault {
    /// `not` stands above an atom that is no membership.
    #[error("an atom that is no membership is negated")]
    NegatedValue,
    /// There are more than 16 conjunctions, or one of more than 8 literals.
    #[error("more than 16 conjunctions, or one of more than 8 literals")]
    TooManyConjunctions,
    /// There are more than 8 different atoms.
    #[error("more than 8 different atoms")]
    TooManyAtoms,
    /// The allocator had no memory left.
    #[error("no memory left")]
    NoMemory,
}

impl From<NoMemory> for NormalFault {
    ghost use Rattle.dsr_normal.specs.declared.faults.NormalFault.TheVariants as faults;

    ghost from_gives = { λ _ e. e ≡ faults.NoMemory };

    fn from(_: NoMemory) -> Self {
        NormalFault::NoMemory
    }
}
