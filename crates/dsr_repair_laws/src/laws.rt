// What steps leave.
ghost use Rattle.std.specs.Prelude.{◌≡◌, ℕ, List, All, length};
ghost use Rattle.dsr_ir.specs.declared.declarations.Spec.{Spec};
ghost use Rattle.dsr_ir.specs.declared.layouts.Cell.{Cell};
ghost use Rattle.dsr_ir.specs.declared.layouts.Layout.{Layout};
ghost use Rattle.dsr_ir.specs.declared.updates.Update.{Update};
ghost use Rattle.dsr_meaning.specs.Cells.{IsFieldCell};
ghost use Rattle.dsr_meaning.specs.Legal.{IsLegalLayout};
ghost use Rattle.dsr_repair_theory.specs.Entries.{IsEntryOf};
ghost use Rattle.dsr_repair_theory.specs.declared.entries.Entry.{Entry};
ghost use Rattle.dsr_step_theory.specs.Images.{FixedFieldsStay, IsFree, IsImageOf, IsOfHead};
ghost use Rattle.dsr_step_theory.specs.Puts.{ArePut};
ghost use Rattle.dsr_step_theory.specs.Steps.{CanStep, IsStepped};
ghost use Rattle.dsr_step_theory.specs.declared.steps.Step.{Step};

/// A step that can be made, writes no fixed field and, where it writes the head, only fields that
/// the head has, leaves the image as long as it was, with the layout that it had.
pub fn steps_keep_the_layout()
    ensures { (spec : Spec) (layout : Layout) (step : Step) (update : Update) (old new : List ℕ)
        → IsImageOf spec layout old → CanStep spec layout step update (length old)
        → All (IsFree spec) update.writes → All (IsOfHead spec step.elem) update.writes
        → IsStepped spec layout step update old new → IsImageOf spec layout new }
{}

/// A step that can be made, writes no fixed field and, where it writes the head, only fields that
/// the head has, changes no bit of a fixed field.
pub fn steps_keep_fixed_fields()
    ensures { (spec : Spec) (layout : Layout) (step : Step) (update : Update) (old new : List ℕ)
        → IsImageOf spec layout old
        → CanStep spec layout step update (length old) → All (IsFree spec) update.writes
        → All (IsOfHead spec step.elem) update.writes
        → IsStepped spec layout step update old new → FixedFieldsStay spec.base old new }
{}

/// Values that are put one after the other into cells, each of which a field may have, leave one
/// list of bytes.
pub fn puts_are_one()
    ensures { (puts : List (Cell × ℕ)) (old a b : List ℕ) → All (λ p. IsFieldCell p.0) puts
        → ArePut puts old a → ArePut puts old b → a ≡ b }
{}

/// A step leaves one list of bytes.
pub fn steps_are_one()
    ensures { (spec : Spec) (layout : Layout) (step : Step) (update : Update) (old a b : List ℕ)
        → IsLegalLayout layout → IsStepped spec layout step update old a
        → IsStepped spec layout step update old b → a ≡ b }
{}

/// One entry tells a step, which leaves one list of bytes.
pub fn entries_are_one()
    ensures { (spec : Spec) (layout : Layout) (step : Step) (update : Update) (old a b : List ℕ)
        (entry other : Entry) → IsLegalLayout layout
        → IsEntryOf spec layout step update old a entry
        → IsEntryOf spec layout step update old b other → (entry ≡ other) × (a ≡ b) }
{}
