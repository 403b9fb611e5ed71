// What is due, and where it leads.
ghost use Rattle.std.specs.Prelude.{◌≡◌, ◌⊎◌, ℕ, List};
ghost use Rattle.dsr_ir.specs.declared.declarations.Spec.{Spec};
ghost use Rattle.dsr_ir.specs.declared.layouts.Layout.{Layout};
ghost use Rattle.dsr_ir.specs.declared.updates.Update.{Update};
ghost use Rattle.dsr_meaning.specs.Typed.{IsTyped};
ghost use Rattle.dsr_plan_theory.specs.Plans.{IsPlan};
ghost use Rattle.dsr_plan_theory.specs.declared.choices.Choice.{Choice};
ghost use Rattle.dsr_repair_theory.specs.Runs.{IsDueEntry, IsPartRun, IsRun};
ghost use Rattle.dsr_repair_theory.specs.Turns.{IsDueStep, IsTurn};
ghost use Rattle.dsr_repair_theory.specs.declared.entries.Entry.{Entry};
ghost use Rattle.dsr_repair_theory.specs.declared.turns.Outcome.{Outcome};
ghost use Rattle.dsr_repair_theory.specs.declared.turns.Turn.{Turn};
ghost use Rattle.dsr_run_laws.specs.Fronts.{GoesOn};
ghost use Rattle.dsr_step_theory.specs.Images.{FixedFieldsStay, IsImageOf};
ghost use Rattle.dsr_step_theory.specs.declared.steps.Step.{Step};

/// One step is due by a plan on an image, by one update.
pub fn due_steps_are_one()
    ensures { (spec : Spec) (choice : Choice) (layout : Layout) (bytes : List ℕ) (step other : Step)
        (update its : Update) → IsPlan spec choice → IsTyped spec
        → IsDueStep spec choice layout bytes step update
        → IsDueStep spec choice layout bytes other its → (step ≡ other) × (update ≡ its) }
{}

/// One thing comes next on an image: a step, a record that is needed, or nothing.
pub fn turns_are_one()
    ensures { (spec : Spec) (choice : Choice) (layout : Layout) (bytes : List ℕ) (turn other : Turn)
        → IsPlan spec choice → IsTyped spec → IsTurn spec choice layout bytes turn
        → IsTurn spec choice layout bytes other → turn ≡ other }
{}

/// The step that is due leaves one list of bytes, and one entry tells it.
pub fn due_entries_are_one()
    ensures { (spec : Spec) (choice : Choice) (layout : Layout) (old a b : List ℕ)
        (entry other : Entry)
        → IsPlan spec choice → IsImageOf spec layout old
        → IsDueEntry spec choice layout old entry a → IsDueEntry spec choice layout old other b
        → (entry ≡ other) × (a ≡ b) }
{}

/// Of two parts of runs of an image the one goes on where the other stops.
pub fn part_runs_are_fronts()
    ensures { (spec : Spec) (choice : Choice) (layout : Layout) (old a b : List ℕ)
        (entries others : List Entry) → IsPlan spec choice → IsImageOf spec layout old
        → IsPartRun spec choice layout old entries a → IsPartRun spec choice layout old others b
        → GoesOn spec choice layout entries a others b
        ⊎ GoesOn spec choice layout others b entries a }
{}

/// A repair of an image by a plan is one run: its entries, the bytes that it leaves, and its end.
pub fn runs_are_one()
    ensures { (spec : Spec) (choice : Choice) (layout : Layout) (old a b : List ℕ)
        (entries others : List Entry) (end other : Outcome)
        → IsPlan spec choice → IsImageOf spec layout old
        → IsRun spec choice layout old entries a end → IsRun spec choice layout old others b other
        → (entries ≡ others) × ((a ≡ b) × (end ≡ other)) }
{}

/// No part of a run changes a bit of a fixed field.
pub fn part_runs_keep_fixed_fields()
    ensures { (spec : Spec) (choice : Choice) (layout : Layout) (old new : List ℕ)
        (entries : List Entry)
        → IsPlan spec choice → IsImageOf spec layout old
        → IsPartRun spec choice layout old entries new → FixedFieldsStay spec.base old new }
{}

/// What the steps of a part of a run leave is an image with the layout that the image had before.
pub fn runs_keep_the_layout()
    ensures { (spec : Spec) (choice : Choice) (layout : Layout) (old new : List ℕ)
        (entries : List Entry)
        → IsPlan spec choice → IsImageOf spec layout old
        → IsPartRun spec choice layout old entries new
        → IsImageOf spec layout new }
{}
