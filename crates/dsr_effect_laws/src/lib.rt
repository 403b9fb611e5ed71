//! Laws on steps: that what a step may change in the model of an image lies in the table of its
//! update, and what a step leaves of the cells that instances read. Each is the contract of a
//! function that does nothing when it runs.
#![tactic(auto)]

ghost use Rattle.dsr_repair_theory.specs.Changed.{IsGained, IsLost};
ghost use Rattle.dsr_effect_laws.specs.Allowed.{Lies};
ghost use Rattle.dsr_effect_laws.specs.Fitting.{IsFitStep};
ghost use Rattle.dsr_effect_laws.specs.Judged.{IsMadeAsJudged};
ghost use Rattle.dsr_effect_laws.specs.Leaving.{IsLeftAs};
ghost use Rattle.dsr_ir.specs.declared.declarations.Spec.{Spec};
ghost use Rattle.dsr_ir.specs.declared.layouts.Layout.{Layout};
ghost use Rattle.dsr_ir.specs.declared.tuples.Element.{Element};
ghost use Rattle.dsr_ir.specs.declared.tuples.Fact.{Fact};
ghost use Rattle.dsr_ir.specs.declared.tuples.Instance.{Instance};
ghost use Rattle.dsr_meaning.specs.Models.{IsDerivedBy, IsFact};
ghost use Rattle.dsr_step_theory.specs.Puts.{ArePut};
ghost use Rattle.dsr_step_theory.specs.Resets.{reset_puts};
ghost use Rattle.dsr_step_theory.specs.declared.steps.Step.{Step};
ghost use Rattle.dsr_update.specs.Claims.{CanReset};
ghost use Rattle.dsr_update.specs.Resets.{IsReset};
ghost use Rattle.dsr_update_theory.specs.Changes.{Change};
ghost use Rattle.dsr_update_theory.specs.declared.effects.Direction.TheVariants.{Gain, Loss};
ghost use Rattle.std.specs.Prelude.{List, ℕ, length};

/// Where a step is made as its update is judged, each fact that is gained or lost lies in the table
/// of the update's effect, under its symbol, with a tag that allows its record.
pub fn changes_lie_in_the_table()
    ensures gains { (c : Change) (layout : Layout) (step : Step) (old new : List ℕ)
        → IsMadeAsJudged c layout step old new → (fact : Fact) → IsGained c.spec layout old new fact
        → Lies c step Gain fact }
    ensures losses { (c : Change) (layout : Layout) (step : Step) (old new : List ℕ)
        → IsMadeAsJudged c layout step old new → (fact : Fact) → IsLost c.spec layout old new fact
        → Lies c step Loss fact }
{}

/// Where a step is made as its update is judged, each fact that only one of the models before and
/// after it has lies in the table of the update's effect, under its symbol, with a tag that allows
/// its record.
pub fn facts_that_change_lie_in_the_table()
    ensures gains { (c : Change) (layout : Layout) (step : Step) (old new : List ℕ)
        → IsMadeAsJudged c layout step old new → (fact : Fact) → IsFact c.spec layout new fact
        → (IsFact c.spec layout old fact → ⊥) → Lies c step Gain fact }
    ensures losses { (c : Change) (layout : Layout) (step : Step) (old new : List ℕ)
        → IsMadeAsJudged c layout step old new → (fact : Fact) → IsFact c.spec layout old fact
        → (IsFact c.spec layout new fact → ⊥) → Lies c step Loss fact }
{}

/// Where a step is made as its update is judged, a fact that no tag of its symbol allows among the
/// gains is there afterwards only where it was, and is given only by what gave it; one that none
/// allows among the losses stays, and is given by what gave it.
pub fn what_no_tag_allows_stays()
    ensures gains { (c : Change) (layout : Layout) (step : Step) (old new : List ℕ)
        → IsMadeAsJudged c layout step old new → (fact : Fact) → (Lies c step Gain fact → ⊥)
        → IsFact c.spec layout new fact → IsFact c.spec layout old fact }
    ensures given { (c : Change) (layout : Layout) (step : Step) (old new : List ℕ)
        → IsMadeAsJudged c layout step old new → (i : Instance) (fact : Fact)
        → (Lies c step Gain fact → ⊥)
        → IsDerivedBy c.spec layout new i fact → IsDerivedBy c.spec layout old i fact }
    ensures losses { (c : Change) (layout : Layout) (step : Step) (old new : List ℕ)
        → IsMadeAsJudged c layout step old new → (fact : Fact) → (Lies c step Loss fact → ⊥)
        → IsFact c.spec layout old fact → IsFact c.spec layout new fact }
    ensures still { (c : Change) (layout : Layout) (step : Step) (old new : List ℕ)
        → IsMadeAsJudged c layout step old new → (i : Instance) (fact : Fact)
        → (Lies c step Loss fact → ⊥)
        → IsDerivedBy c.spec layout old i fact → IsDerivedBy c.spec layout new i fact }
{}

/// A step that can be made as its update is judged leaves all that instances read as the update is
/// judged to leave it.
pub fn steps_leave_what_is_judged()
    ensures { (c : Change) (layout : Layout) (step : Step) (old new : List ℕ)
        → IsFitStep c layout step old new → IsLeftAs c layout step old new }
{}

/// After the puts of a reset each entry of each named field of the record has the field's reset
/// value, each other bit of its slot is 0, and every bit outside of the slot is as it was.
pub fn resets_reset()
    ensures { (spec : Spec) (layout : Layout) (e : Element) (old new : List ℕ)
        → CanReset spec layout e (length old) → ArePut (reset_puts spec.base layout e) old new
        → IsReset spec layout e old new }
{}
