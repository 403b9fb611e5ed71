// What a run says of repairs and trials: laws.
ghost use Rattle.std.specs.Prelude.{ℕ, List};
ghost use Rattle.dsr_command_theory.specs.Commands.{asked};
ghost use Rattle.dsr_command_laws.specs.RepairHeadlines.{RepairsImages, RepairsLast, RepairsNothingElse, TellsTrials};
ghost use Rattle.dsr_script.specs.Outside.{Outside};
ghost use Rattle.dsr_script.specs.Runs.{Runs};
ghost use Rattle.dsr_script.specs.declared.status.Status.{Status};

use dsr_compile_laws::texts_have_one_meaning;

/// A `repair` that speaks gives the verdict on the repair; no image is said to be repaired, and no
/// supply to be empty, unless due steps were made that come to this; and what was saved is
/// consistent by every `check` under the same specification.
pub fn images_are_repaired()
    ensures repairs { (words : List (List ℕ)) (before after : Outside) (status : Status)
        → Runs (asked words) before after status → RepairsImages words before after status }
    ensures nothing_else { (words : List (List ℕ)) (before after : Outside) (status : Status)
        → Runs (asked words) before after status → RepairsNothingElse words before after status }
    ensures last { (words : List (List ℕ)) (before after : Outside) (status : Status)
        → Runs (asked words) before after status → RepairsLast words before after status }
{
    texts_have_one_meaning();
}

/// A `trial` that speaks tells its answer, and saves nothing.
pub fn trials_are_told()
    ensures { (words : List (List ℕ)) (before after : Outside) (status : Status)
        → Runs (asked words) before after status → TellsTrials words before after status }
{}
