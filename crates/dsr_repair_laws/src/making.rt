// A step that is due can be made.
ghost use Rattle.std.specs.Prelude.{ℕ, List, All, length};
ghost use Rattle.dsr_ir.specs.declared.declarations.Spec.{Spec};
ghost use Rattle.dsr_ir.specs.declared.layouts.Layout.{Layout};
ghost use Rattle.dsr_ir.specs.declared.updates.Update.{Update};
ghost use Rattle.dsr_plan_theory.specs.Plans.{IsPlan};
ghost use Rattle.dsr_plan_theory.specs.declared.choices.Choice.{Choice};
ghost use Rattle.dsr_step_theory.specs.Images.{IsFree, IsImageOf, IsOfHead};
ghost use Rattle.dsr_repair_theory.specs.Reading.{IsPathIn};
ghost use Rattle.dsr_repair_theory.specs.Turns.{IsDueStep};
ghost use Rattle.dsr_step_theory.specs.Steps.{CanStep};
ghost use Rattle.dsr_step_theory.specs.declared.steps.Step.{Step};

/// A step that is due by a plan can be made: each field that it writes is there, and each number
/// fits.
pub fn due_steps_can_be_made()
    ensures { (spec : Spec) (choice : Choice) (layout : Layout) (bytes : List ℕ) (step : Step)
        (update : Update) → IsImageOf spec layout bytes → IsPlan spec choice
        → IsDueStep spec choice layout bytes step update
        → CanStep spec layout step update (length bytes) }
{}

/// A step that is due by a plan writes no fixed field.
pub fn due_steps_write_no_fixed_field()
    ensures { (spec : Spec) (choice : Choice) (layout : Layout) (bytes : List ℕ) (step : Step)
        (update : Update) → IsImageOf spec layout bytes → IsPlan spec choice
        → IsDueStep spec choice layout bytes step update → All (IsFree spec) update.writes }
{}

/// Where a step that is due by a plan writes the head, it writes fields of the head's structure.
pub fn due_steps_write_fields_of_the_head()
    ensures { (spec : Spec) (choice : Choice) (layout : Layout) (bytes : List ℕ) (step : Step)
        (update : Update) → IsImageOf spec layout bytes → IsPlan spec choice
        → IsDueStep spec choice layout bytes step update
        → All (IsOfHead spec step.elem) update.writes }
{}

/// The fields that a due step writes are read by rules whose records are of the written one's pool.
pub fn due_steps_write_what_rules_read()
    ensures { (spec : Spec) (choice : Choice) (layout : Layout) (bytes : List ℕ) (step : Step)
        (update : Update) → IsImageOf spec layout bytes → IsPlan spec choice
        → IsDueStep spec choice layout bytes step update
        → All (IsPathIn spec step.elem.pool) update.writes }
{}
