// What a run says of words that ask for nothing, and of images and texts: laws.
ghost use Rattle.std.specs.Prelude.{ℕ, List};
ghost use Rattle.dsr_command_theory.specs.Commands.{asked};
ghost use Rattle.dsr_command_laws.specs.ImageHeadlines.{ChecksImages, ChecksNothingElse, PrintsTexts, TellsUsage};
ghost use Rattle.dsr_script.specs.Outside.{Outside};
ghost use Rattle.dsr_script.specs.Runs.{Runs};
ghost use Rattle.dsr_script.specs.declared.status.Status.{Status};

use dsr_command_theory::usage_has_six_reasons;
use dsr_compile_laws::texts_have_one_meaning;

/// A `check` that speaks gives the verdict on the image; none is called consistent or inconsistent
/// unless it was checked.
pub fn images_are_checked()
    ensures images { (words : List (List ℕ)) (before after : Outside) (status : Status)
        → Runs (asked words) before after status → ChecksImages words before after status }
    ensures nothing_else { (words : List (List ℕ)) (before after : Outside) (status : Status)
        → Runs (asked words) before after status → ChecksNothingElse words before after status }
{
    texts_have_one_meaning();
}

/// A `text` prints the canonical text of the specification.
pub fn texts_are_printed()
    ensures { (words : List (List ℕ)) (before after : Outside) (status : Status)
        → Runs (asked words) before after status → PrintsTexts words before after status }
{}

/// Words are said to ask for nothing exactly where one of six reasons holds.
pub fn usage_is_told()
    ensures { (words : List (List ℕ)) (before after : Outside) (status : Status)
        → Runs (asked words) before after status → TellsUsage words before after status }
{
    usage_has_six_reasons();
}
