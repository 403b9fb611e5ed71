// What audits tell.
ghost use Rattle.std.specs.Prelude.{◌≡◌, ◌≢◌, ℕ, List};
ghost use Rattle.dsr_ir.specs.declared.declarations.Spec.{Spec};
ghost use Rattle.dsr_ir.specs.declared.layouts.Layout.{Layout};
ghost use Rattle.dsr_plan_theory.specs.Plans.{IsPlan};
ghost use Rattle.dsr_plan_theory.specs.declared.choices.Choice.{Choice};
ghost use Rattle.dsr_repair_theory.specs.declared.entries.Entry.{Entry};
ghost use Rattle.dsr_replay.specs.Audits.{IsAuditFault, IsAudited};
ghost use Rattle.dsr_replay.specs.declared.faults.AuditFault.{AuditFault};
ghost use Rattle.dsr_replay.specs.declared.faults.AuditFault.TheVariants as faults;
ghost use Rattle.dsr_step_theory.specs.Images.{IsImageOf};

/// A log that is audited has no fault, and one that isn't has one fault.
pub fn audits_have_one_outcome()
    ensures either { (spec : Spec) (choice : Choice) (layout : Layout) (image fixed : List ℕ)
        (log : List Entry) (fault : AuditFault) → IsPlan spec choice → IsImageOf spec layout image
        → fault ≢ faults.NoMemory → IsAudited spec choice layout image log fixed
        → IsAuditFault spec choice layout image log fixed fault → ⊥ }
    ensures fault { (spec : Spec) (choice : Choice) (layout : Layout) (image fixed : List ℕ)
        (log : List Entry) (fault other : AuditFault) → IsPlan spec choice
        → IsImageOf spec layout image → fault ≢ faults.NoMemory → other ≢ faults.NoMemory
        → IsAuditFault spec choice layout image log fixed fault
        → IsAuditFault spec choice layout image log fixed other → fault ≡ other }
{}
