// Laws on what remains to be done.
ghost use Rattle.std.specs.Prelude.{◌≡◌, ◌<◌, ◌≤◌, ℕ, List, Some, length, slice_get};
ghost use Rattle.dsr_ir.specs.declared.declarations.Spec.{Spec};
ghost use Rattle.dsr_ir.specs.declared.layouts.Layout.{Layout};
ghost use Rattle.dsr_meaning.specs.Consistency.{BoundConstraint, IsViolated};
ghost use Rattle.dsr_meaning.specs.Models.{IsFact};
ghost use Rattle.dsr_plan_theory.specs.Plans.{IsPlan};
ghost use Rattle.dsr_plan_theory.specs.declared.choices.Choice.{Choice};
ghost use Rattle.dsr_plan_theory.specs.declared.choices.Row.{Row};
ghost use Rattle.dsr_bound_laws.specs.Bounds.{bound};
ghost use Rattle.dsr_bound_laws.specs.Remaining.{IsRemaining};
ghost use Rattle.dsr_step_theory.specs.Images.{IsImageOf};
ghost use Rattle.dsr_repair_theory.specs.Runs.{IsDueEntry, IsPartRun};
ghost use Rattle.dsr_repair_theory.specs.Turns.{bound_by};
ghost use Rattle.dsr_repair_theory.specs.declared.entries.Entry.{Entry};

/// What remains to be done on an image by a plan is one number.
pub fn remaining_is_a_number()
    ensures there { (spec : Spec) (choice : Choice) (layout : Layout) (bytes : List ℕ)
        → IsPlan spec choice
        → IsImageOf spec layout bytes → (n : ℕ) × IsRemaining spec choice layout bytes n }
    ensures once { (spec : Spec) (choice : Choice) (layout : Layout) (bytes : List ℕ) (n m : ℕ)
        → IsRemaining spec choice layout bytes n → IsRemaining spec choice layout bytes m → n ≡ m }
{}

/// What remains to be done on an image is at most what the specification and the image's length
/// bound.
pub fn remaining_is_bounded()
    ensures { (spec : Spec) (choice : Choice) (layout : Layout) (bytes : List ℕ) (n : ℕ)
        → IsImageOf spec layout bytes → IsRemaining spec choice layout bytes n
        → n ≤ bound spec (length bytes) }
{}

/// A step that is due makes lower what remains to be done.
pub fn remaining_falls()
    ensures { (spec : Spec) (choice : Choice) (layout : Layout) (old new : List ℕ) (entry : Entry)
        (n m : ℕ)
        → IsPlan spec choice → IsImageOf spec layout old → IsImageOf spec layout new
        → IsDueEntry spec choice layout old entry new
        → IsRemaining spec choice layout old n → IsRemaining spec choice layout new m → m < n }
{}

/// Where a step that is due makes a binding violated, that is one of a constraint on a higher
/// level.
pub fn violations_rise_above_alone()
    ensures { (spec : Spec) (choice : Choice) (layout : Layout) (old new : List ℕ) (entry : Entry)
        (w : BoundConstraint) (row other : Row)
        → IsPlan spec choice → IsImageOf spec layout old
        → (due : IsDueEntry spec choice layout old entry new)
        → IsViolated (IsFact spec layout new) spec w
        → (IsViolated (IsFact spec layout old) spec w → ⊥)
        → slice_get choice.rows (bound_by due.step).constraint ≡ Some row
        → slice_get choice.rows w.constraint ≡ Some other → row.level < other.level }
{}

/// A run, and each part of one, has at most as many steps as the specification and the image's
/// length bound.
pub fn runs_are_bounded()
    ensures { (spec : Spec) (choice : Choice) (layout : Layout) (old new : List ℕ)
        (entries : List Entry)
        → IsPlan spec choice → IsImageOf spec layout old
        → IsPartRun spec choice layout old entries new
        → length entries ≤ bound spec (length old) }
{}
