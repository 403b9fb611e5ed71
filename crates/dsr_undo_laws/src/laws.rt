// What taking back leads to.
ghost use Rattle.std.specs.Prelude.{◌≡◌, ℕ, List};
ghost use Rattle.dsr_ir.specs.declared.declarations.Spec.{Spec};
ghost use Rattle.dsr_ir.specs.declared.declarations.Structures.{Structures};
ghost use Rattle.dsr_ir.specs.declared.layouts.Layout.{Layout};
ghost use Rattle.dsr_plan_theory.specs.Plans.{IsPlan};
ghost use Rattle.dsr_plan_theory.specs.declared.choices.Choice.{Choice};
ghost use Rattle.dsr_repair_theory.specs.Runs.{IsPartRun, IsRun};
ghost use Rattle.dsr_repair_theory.specs.declared.entries.Entry.{Entry};
ghost use Rattle.dsr_repair_theory.specs.declared.turns.Outcome.{Outcome};
ghost use Rattle.dsr_step_theory.specs.Images.{IsImageOf};
ghost use Rattle.dsr_undo_laws.specs.TakingBack.{AreTakenBack, IsRefused};
ghost use Rattle.dsr_undo_laws.specs.declared.faults.UndoFault.{UndoFault};

/// The entries of a part of a run by a plan, taken back from the bytes that it leads to, lead to
/// those from which it began, and no line is refused.
pub fn runs_are_taken_back()
    ensures part_run { (spec : Spec) (choice : Choice) (layout : Layout) (old new : List ℕ)
        (entries : List Entry) → IsImageOf spec layout old → IsPlan spec choice
        → IsPartRun spec choice layout old entries new
        → AreTakenBack spec.base entries new old }
    ensures run { (spec : Spec) (choice : Choice) (layout : Layout) (old new : List ℕ)
        (entries : List Entry) (outcome : Outcome) → IsImageOf spec layout old
        → IsPlan spec choice → IsRun spec choice layout old entries new outcome
        → AreTakenBack spec.base entries new old }
{}

/// Entries that are taken back lead to one image; where they are, no line is refused. Else one line
/// at most is the first that is, with one fault and one image.
pub fn taking_back_has_one_outcome()
    ensures image { (base : Structures) (entries : List Entry) (old new other : List ℕ)
        → AreTakenBack base entries old new → AreTakenBack base entries old other → new ≡ other }
    ensures either { (base : Structures) (first : ℕ) (entries : List Entry)
        (old new other : List ℕ) (fault : UndoFault) → AreTakenBack base entries old new
        → IsRefused base first entries old other fault → ⊥ }
    ensures fault { (base : Structures) (first : ℕ) (entries : List Entry)
        (old new other : List ℕ) (fault cause : UndoFault)
        → IsRefused base first entries old new fault
        → IsRefused base first entries old other cause → (new ≡ other) × (fault ≡ cause) }
{}
