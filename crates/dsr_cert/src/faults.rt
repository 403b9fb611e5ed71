// Why a certificate is none of a plan.
ghost use Rattle.std.specs.Prelude.{◌≡◌};

use dsr_ir::NoMemory;

/// Why a text is no certificate, or a choice is no plan; constraints, conjunctions and literals
/// count from 0.
#[derive(Clone, Copy)]
pub enum CertFault {
    /// A line isn't what the format and the specification ask for; its number, counted from 1.
    Text(u64),
    /// The tests of this constraint's row don't cover it.
    Coverage(u32),
    /// The way of this literal (constraint, conjunction, literal) is no listed template, or the
    /// literal is `given`.
    NotATemplate(u32, u32, u32),
    /// The template of this literal falsifies another literal of its conjunction.
    Falsifies(u32, u32, u32),
    /// A template of the first constraint breaks the second, whose level isn't higher.
    Edge(u32, u32),
    /// The first constraint relies on the second, whose level isn't lower.
    Reliance(u32, u32),
    /// The allocator had no memory left.
    NoMemory,
}

impl From<NoMemory> for CertFault {
    ghost use Rattle.dsr_cert.specs.declared.faults.CertFault.TheVariants as faults;

    ghost from_gives = { λ _ e. e ≡ faults.NoMemory };

    fn from(_: NoMemory) -> Self {
        CertFault::NoMemory
    }
}
