// What a run says of edits: laws.
ghost use Rattle.std.specs.Prelude.{ℕ, List};
ghost use Rattle.dsr_command_theory.specs.Commands.{asked};
ghost use Rattle.dsr_command_laws.specs.EditHeadlines.{EditsImages, EditsNothingElse};
ghost use Rattle.dsr_script.specs.Outside.{Outside};
ghost use Rattle.dsr_script.specs.Runs.{Runs};
ghost use Rattle.dsr_script.specs.declared.status.Status.{Status};

use dsr_compile_laws::texts_have_one_meaning;

/// An `edit` that speaks has made all groups of the script, each of which left the image consistent,
/// or tells why not; no image is said to be edited, and no script refused, unless that was tried.
pub fn images_are_edited()
    ensures edits { (words : List (List ℕ)) (before after : Outside) (status : Status)
        → Runs (asked words) before after status → EditsImages words before after status }
    ensures nothing_else { (words : List (List ℕ)) (before after : Outside) (status : Status)
        → Runs (asked words) before after status → EditsNothingElse words before after status }
{
    texts_have_one_meaning();
}
