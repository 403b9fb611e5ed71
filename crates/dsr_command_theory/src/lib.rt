//! When words ask for nothing, and what each command does, as a script.
#![tactic(auto)]

ghost use Rattle.std.specs.Prelude.{◌≡◌, ◌↔◌, ℕ, List, None, Some};
ghost use Rattle.dsr_command_theory.specs.Usage.{AskForNothing, Says};
ghost use Rattle.dsr_words.specs.Words.{Asked, command_of};

/// Words ask for nothing exactly where one of six reasons holds.
pub fn usage_has_six_reasons()
    ensures nothing { (words : List (List ℕ)) → (command_of words ≡ None) ↔ AskForNothing words }
    ensures others { (words : List (List ℕ)) (asked : Asked)
        → (command_of words ≡ Some asked) ↔ (Says words asked × (AskForNothing words → ⊥)) }
{}
