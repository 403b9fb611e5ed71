// Laws on specifications, each the contract of a function that does nothing.
ghost use Rattle.std.specs.Prelude.{◌≡◌, ℕ, List};
ghost use Rattle.dsr_ir.specs.declared.declarations.Spec.{Spec};
ghost use Rattle.dsr_language_theory.specs.Specifications.{IsSpecificationOf};

/// A text means at most one specification.
pub fn specifications_are_unique()
    ensures { (text : List ℕ) (a b : Spec) → IsSpecificationOf text a → IsSpecificationOf text b → a ≡ b }
{}
