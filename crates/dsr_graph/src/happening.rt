// What an update may do, by its effect.
ghost use Rattle.std.specs.Prelude.{◌≡◌};
ghost use Rattle.dsr_graph_theory.specs.Causes.{symbol_of};
ghost use Rattle.dsr_graph.specs.Told as told;
ghost use Rattle.dsr_graph.specs.Told.{AreTagsOf};
ghost use Rattle.dsr_meaning.specs.Typed.{AreTyped};
ghost use Rattle.dsr_compensate.specs.Judged.{IsEffectOf};
ghost use Rattle.dsr_update_theory.specs.Changes.{Change as ChangeOf};
ghost use Rattle.dsr_update_theory.specs.Effects.{IsDeclared};

use dsr_effect::tags_of;
use dsr_graph_theory::Reason;
use dsr_ir::Structures;
use dsr_update_theory::{Direction, Effect, Tags};

/// The records at which an update may do what the reason says.
pub fn tags_for(base: &Structures, effect: &Effect, reason: Reason) -> Tags
    requires typed { AreTyped base.now }
    requires declared { IsDeclared base.now (symbol_of reason) }
    ensures { (c : ChangeOf) → c.spec.base ≡ base.now → IsEffectOf c effect.now
        → AreTagsOf c reason result }
{
    match reason {
        Reason::Gain(symbol) => tags_of(base, effect, Direction::Gain, symbol),
        Reason::Loss(symbol) => tags_of(base, effect, Direction::Loss, symbol),
    }
}

/// Whether any tag is set, so that an update may act at some record.
pub fn is_some(tags: Tags) -> bool
    ensures { result ≡ told.is_some tags }
{
    tags.written || tags.entry || tags.fresh || tags.any
}

/// Whether no tag but that of the written record is set, so that an update acts there alone, if at
/// all.
pub fn is_only_written(tags: Tags) -> bool
    ensures { result ≡ told.is_only_written tags }
{
    !(tags.entry || tags.fresh || tags.any)
}

/// Whether no tag but that of the written entry is set, so that an update acts at its slot alone,
/// if at all.
pub fn is_only_entry(tags: Tags) -> bool
    ensures { result ≡ told.is_only_entry tags }
{
    !(tags.written || tags.fresh || tags.any)
}
