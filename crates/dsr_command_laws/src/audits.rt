// What a run says of reports: laws.
ghost use Rattle.std.specs.Prelude.{ℕ, List};
ghost use Rattle.dsr_command_theory.specs.Commands.{asked};
ghost use Rattle.dsr_command_laws.specs.AuditHeadlines.{AuditsNothingElse, AuditsReports, UndoesAudited};
ghost use Rattle.dsr_script.specs.Outside.{Outside};
ghost use Rattle.dsr_script.specs.Runs.{Runs};
ghost use Rattle.dsr_script.specs.declared.status.Status.{Status};

use dsr_command_audit::{audited_repairs_are_taken_back, reports_of_repairs_are_audited};
use dsr_compile_laws::texts_have_one_meaning;

/// An `audit` that speaks gives the verdict on the report; none is said to be sound or refused
/// unless it was audited.
pub fn reports_are_audited()
    ensures reports { (words : List (List ℕ)) (before after : Outside) (status : Status)
        → Runs (asked words) before after status → AuditsReports words before after status }
    ensures nothing_else { (words : List (List ℕ)) (before after : Outside) (status : Status)
        → Runs (asked words) before after status → AuditsNothingElse words before after status }
{
    texts_have_one_meaning();
    reports_of_repairs_are_audited();
}

/// Where an `undo` speaks of a report that is sound, it has saved the image from which the repair
/// began.
pub fn sound_repairs_are_taken_back()
    ensures { (words : List (List ℕ)) (before after : Outside) (status : Status)
        → Runs (asked words) before after status → UndoesAudited words before after status }
{
    texts_have_one_meaning();
    audited_repairs_are_taken_back();
}
