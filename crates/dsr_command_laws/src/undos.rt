// What a run says of repairs that are taken back: laws.
ghost use Rattle.std.specs.Prelude.{ℕ, List};
ghost use Rattle.dsr_command_theory.specs.Commands.{asked};
ghost use Rattle.dsr_command_laws.specs.UndoHeadlines.{UndoesNothingElse, UndoesRepairs};
ghost use Rattle.dsr_script.specs.Outside.{Outside};
ghost use Rattle.dsr_script.specs.Runs.{Runs};
ghost use Rattle.dsr_script.specs.declared.status.Status.{Status};

use dsr_compile_laws::texts_have_one_meaning;

/// An `undo` that speaks has taken back what the report tells, or tells why not; nothing is said to
/// be undone, and no report refused, unless that was tried.
pub fn repairs_are_undone()
    ensures repairs { (words : List (List ℕ)) (before after : Outside) (status : Status)
        → Runs (asked words) before after status → UndoesRepairs words before after status }
    ensures nothing_else { (words : List (List ℕ)) (before after : Outside) (status : Status)
        → Runs (asked words) before after status → UndoesNothingElse words before after status }
{
    texts_have_one_meaning();
}
