// How the names of a specification are spelled: a law.
ghost use Rattle.std.specs.Prelude.{ℕ, List};
ghost use Rattle.dsr_ir.specs.declared.declarations.Spec.{Spec};
ghost use Rattle.dsr_language_laws.specs.Spellings.{HasSpelledNames};
ghost use Rattle.dsr_language_theory.specs.Specifications.{IsSpecificationOf};

/// The names of a specification that a text means are spelled as the grammar spells names.
pub fn names_are_spelled()
    ensures { (text : List ℕ) (spec : Spec) → IsSpecificationOf text spec → HasSpelledNames spec }
{}
