//! Texts have one meaning: laws, so that what is proved by them needs none of the grammar's proofs.
#![tactic(auto)]

ghost use Rattle.dsr_compile_laws.specs.Meanings.{HaveOneMeaning, HaveOneReading, HaveOneRefusal};

/// Each text has one meaning at most, and isn't refused where it has one.
pub fn texts_have_one_meaning()
    ensures { HaveOneMeaning }
{}

/// Each text is refused by one answer at most, so one thing alone is read of it.
pub fn refusals_are_one()
    ensures refusals { HaveOneRefusal }
    ensures readings { HaveOneReading }
{}
