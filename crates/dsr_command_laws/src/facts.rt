// What a run says of the facts of an image, and of records that no set has: laws.
ghost use Rattle.std.specs.Prelude.{ℕ, List};
ghost use Rattle.dsr_command_theory.specs.Commands.{asked};
ghost use Rattle.dsr_command_laws.specs.FactHeadlines.{ExplainsFacts, ExplainsNothingElse, ListsNothingElse, ListsRecords};
ghost use Rattle.dsr_script.specs.Outside.{Outside};
ghost use Rattle.dsr_script.specs.Runs.{Runs};
ghost use Rattle.dsr_script.specs.declared.status.Status.{Status};

use dsr_compile_laws::texts_have_one_meaning;

/// A `why` that speaks tells the first of the shortest chains of the fact, or outside of which set
/// the record is, or that no fact of the model has the text; and nothing is said of a fact unless it
/// was looked for.
pub fn facts_are_explained()
    ensures facts { (words : List (List ℕ)) (before after : Outside) (status : Status)
        → Runs (asked words) before after status → ExplainsFacts words before after status }
    ensures nothing_else { (words : List (List ℕ)) (before after : Outside) (status : Status)
        → Runs (asked words) before after status → ExplainsNothingElse words before after status }
{
    texts_have_one_meaning();
}

/// A `lost` that speaks tells exactly the records that no set has; and none is called lost unless it
/// was looked for.
pub fn lost_records_are_listed()
    ensures records { (words : List (List ℕ)) (before after : Outside) (status : Status)
        → Runs (asked words) before after status → ListsRecords words before after status }
    ensures nothing_else { (words : List (List ℕ)) (before after : Outside) (status : Status)
        → Runs (asked words) before after status → ListsNothingElse words before after status }
{
    texts_have_one_meaning();
}
