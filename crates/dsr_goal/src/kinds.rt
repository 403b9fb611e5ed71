// Kinds of rules.
ghost use Rattle.std.specs.Prelude.{◌≡◌};
ghost use Rattle.dsr_update_theory.specs.Givers as rules;

use dsr_ir::{Inc, Span};

/// Whether the rule has no index.
pub fn is_single(span: Span) -> bool
    ensures { result ≡ rules.is_single span }
{
    matches!(span, Span::Single)
}

/// Whether the record of an instance itself is the member or the source that the rule gives.
pub fn is_own(inc: &Inc) -> bool
    ensures { result ≡ rules.is_own inc.now }
{
    matches!(inc, Inc::Own(_) | Inc::OwnPair(_, _))
}

/// Whether the slot at the index is the member or the source that the rule gives.
pub fn is_slot(inc: &Inc) -> bool
    ensures { result ≡ rules.is_slot inc.now }
{
    matches!(inc, Inc::Slot(_, _) | Inc::SlotPair(_, _, _))
}
