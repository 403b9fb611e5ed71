// Which entries the report of a run tells.
ghost use Rattle.std.specs.Prelude.{◌≡◌, ℕ, List};
ghost use Rattle.dsr_ir.specs.declared.declarations.Spec.{Spec};
ghost use Rattle.dsr_ir.specs.declared.layouts.Layout.{Layout};
ghost use Rattle.dsr_meaning.specs.Typed.{IsTyped};
ghost use Rattle.dsr_plan_theory.specs.Plans.{IsPlan};
ghost use Rattle.dsr_plan_theory.specs.declared.choices.Choice.{Choice};
ghost use Rattle.dsr_repair_theory.specs.Runs.{IsPartRun};
ghost use Rattle.dsr_repair_theory.specs.declared.entries.Entry.{Entry};
ghost use Rattle.dsr_report.specs.Reports.{report_text};
ghost use Rattle.dsr_report_laws.specs.Readings.{AreReadAs, HasOwnFieldNames};
ghost use Rattle.dsr_report_read.specs.Forms.{IsReported};
ghost use Rattle.dsr_step_theory.specs.Images.{IsImageOf};

/// The report of each part of a run is one that can be read: that of entries which a report may
/// tell, and which are those of the run but for fields that are named alike.
pub fn runs_are_reported()
    ensures { (spec : Spec) (choice : Choice) (layout : Layout) (old new : List ℕ)
        (entries : List Entry) → IsPlan spec choice → IsImageOf spec layout old
        → IsPartRun spec choice layout old entries new
        → (told : List Entry) × AreReadAs spec entries told × IsReported spec told
        × (report_text spec told ≡ report_text spec entries) }
{}

/// Where no two fields of a pool are named alike, a report may tell the entries of each part of a
/// run themselves, and is read as no others.
pub fn own_field_names_are_read_back()
    ensures reported { (spec : Spec) (choice : Choice) (layout : Layout) (old new : List ℕ)
        (entries : List Entry) → HasOwnFieldNames spec → IsPlan spec choice
        → IsImageOf spec layout old → IsPartRun spec choice layout old entries new
        → IsReported spec entries }
    ensures alone { (spec : Spec) (entries told : List Entry) → HasOwnFieldNames spec
        → AreReadAs spec entries told → told ≡ entries }
{}

/// Entries that differ in no more than fields that are named alike have one report.
pub fn readings_have_one_report()
    ensures { (spec : Spec) (entries told : List Entry) → AreReadAs spec entries told
        → report_text spec told ≡ report_text spec entries }
{}

/// Of all entries that differ in no more than fields that are named alike, a report may tell one
/// list alone: that with the first field of each name.
pub fn readings_are_one()
    ensures { (spec : Spec) (entries told other : List Entry) → IsTyped spec
        → AreReadAs spec entries told → AreReadAs spec entries other
        → IsReported spec told → IsReported spec other → told ≡ other }
{}
