// A report of a repair is audited, and what an audit accepts is taken back.
ghost use Rattle.std.specs.Prelude.{◌≡◌, ◌<◌, ◌^◌, ℕ, List, length};
ghost use Rattle.dsr_command_audit.specs.Audited.{IsAuditAnswer, IsReportOfRepair};
ghost use Rattle.dsr_command_audit.specs.ReportTexts.{audited_answer, undone_answer};
ghost use Rattle.dsr_command_audit.specs.Undone.{IsUndoOf};
ghost use Rattle.dsr_command_image.specs.Repaired.{Ending, Saves};
ghost use Rattle.dsr_ir.specs.declared.declarations.Spec.{Spec};
ghost use Rattle.dsr_language_laws.specs.Spellings.{HasSpelledNames};
ghost use Rattle.dsr_plan_theory.specs.Plans.{IsPlan};
ghost use Rattle.dsr_plan_theory.specs.declared.choices.Choice.{Choice};
ghost use Rattle.dsr_repair_theory.specs.declared.entries.Entry.{Entry};
ghost use Rattle.dsr_script.specs.Scripts.{Answer};

/// Where a report is that of the repair of an image, which led to the fixed bytes, taking it back
/// saves the bytes of the image, and nothing else comes of it. Names have to be spelled as the
/// grammar spells them, as those of each text are. A report counts its entries in 64 bits.
pub fn audited_repairs_are_taken_back()
    ensures { (spec : Spec) (choice : Choice) (image report fixed : List ℕ) (run : List Entry)
        (ending : Ending) → HasSpelledNames spec → IsPlan spec choice → length run < 2 ^ 64
        → IsReportOfRepair spec choice image report fixed run
        → IsUndoOf spec fixed report ending → ending ≡ Saves image (undone_answer (length run)) }
{}

/// Where a report is that of the repair of an image, which led to the fixed bytes, an audit tells
/// this and nothing else.
pub fn reports_of_repairs_are_audited()
    ensures { (spec : Spec) (choice : Choice) (image report fixed : List ℕ) (run : List Entry)
        (answer : Answer) → HasSpelledNames spec → IsPlan spec choice → length run < 2 ^ 64
        → IsReportOfRepair spec choice image report fixed run
        → IsAuditAnswer spec choice image report fixed answer
        → answer ≡ audited_answer (length run) }
{}
