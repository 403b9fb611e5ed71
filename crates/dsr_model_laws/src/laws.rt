// Laws on models, each the contract of a function.
ghost use Rattle.std.specs.Prelude.{◌≡◌, ◌↔◌, ℕ, IsTrue, List};
ghost use Rattle.dsr_ir.specs.declared.constraints.Literal.{Literal};
ghost use Rattle.dsr_ir.specs.declared.constraints.Measure.{Measure};
ghost use Rattle.dsr_ir.specs.declared.declarations.Spec.{Spec};
ghost use Rattle.dsr_ir.specs.declared.layouts.Layout.{Layout};
ghost use Rattle.dsr_ir.specs.declared.tuples.Binding.{Binding};
ghost use Rattle.dsr_ir.specs.declared.tuples.Element.{Element};
ghost use Rattle.dsr_ir.specs.declared.tuples.Fact.{Fact};
ghost use Rattle.dsr_ir.specs.declared.tuples.Instance.{Instance};
ghost use Rattle.dsr_ir.specs.declared.tuples.Target.{Target};
ghost use Rattle.dsr_layout.specs.Laws.{OfEachLayout};
ghost use Rattle.dsr_meaning.specs.Consistency.{AreViolations, BoundConstraint, IsConsistent};
ghost use Rattle.dsr_meaning.specs.Legal.{IsLegalLayout};
ghost use Rattle.dsr_meaning.specs.Models.{IsActive, IsDerivedBy, IsFact, IsPair};
ghost use Rattle.dsr_meaning.specs.Truth.{HasVariable, LiteralHolds};
ghost use Rattle.dsr_meaning.specs.Typed.{IsTyped};
ghost use Rattle.dsr_model_laws.specs.Deciding.{IsDecided};
ghost use Rattle.dsr_model_laws.specs.Reading.{ReadTheSame};
ghost use Rattle.dsr_model_laws.specs.Sizes.{IsOnlySize, SizesAreBounded};
ghost use Rattle.dsr_update_theory.specs.Givers.{is_functional};

/// Whether a fact is in the model is decided, and whether an instance is active.
pub fn facts_are_decided()
    ensures facts { (spec : Spec) (layout : Layout) (bytes : List ℕ) (fact : Fact) →
        IsDecided (IsFact spec layout bytes fact) }
    ensures instances { (spec : Spec) (layout : Layout) (bytes : List ℕ) (i : Instance) →
        IsDecided (IsActive spec layout bytes i) }
{}

/// Whether a literal is true is decided.
pub fn literals_are_decided()
    ensures { (spec : Spec) (layout : Layout) (bytes : List ℕ) (b : Binding) (literal : Literal) →
        IsDecided (LiteralHolds (IsFact spec layout bytes) b literal) }
{}

/// Whether an image is consistent is decided.
pub fn consistency_is_decided()
    ensures { (spec : Spec) (layout : Layout) (bytes : List ℕ) →
        IsDecided (IsConsistent spec layout bytes) }
{}

/// The violated bindings of an image have a list.
pub fn violations_are_there()
    ensures { (spec : Spec) (layout : Layout) (bytes : List ℕ) →
        (vs : List BoundConstraint) × AreViolations (IsFact spec layout bytes) spec vs }
{}

/// A set has one size, and so has a variable under a relation where the binding has the variable.
pub fn sizes_are_there()
    ensures { (spec : Spec) (layout : Layout) (bytes : List ℕ) (b : Binding) (measure : Measure) →
        HasVariable b measure → (n : ℕ) × IsOnlySize (IsFact spec layout bytes) b measure n }
{}

/// A count of records is at most as large as the layout lets it be.
pub fn sizes_are_bounded()
    ensures { OfEachLayout (λ spec bytes layout. IsTyped spec → SizesAreBounded spec bytes layout) }
{}

/// Images on which all instances read the same have the same facts, by the same instances.
pub fn models_depend_on_what_is_read()
    ensures facts { (spec : Spec) (layout : Layout) (a b : List ℕ) →
        ReadTheSame spec layout a b →
        (fact : Fact) → IsFact spec layout a fact ↔ IsFact spec layout b fact }
    ensures instances { (spec : Spec) (layout : Layout) (a b : List ℕ) →
        ReadTheSame spec layout a b → (i : Instance) (fact : Fact) →
        IsDerivedBy spec layout a i fact ↔ IsDerivedBy spec layout b i fact }
{}

/// Under a functional relation each record has one target at most, in every image.
pub fn functional_relations_have_one_target()
    ensures { (spec : Spec) (layout : Layout) (bytes : List ℕ) (rel : ℕ) (x : Element)
        (t u : Target) → IsLegalLayout layout → IsTrue (is_functional spec rel) →
        IsPair spec layout bytes rel x t → IsPair spec layout bytes rel x u → t ≡ u }
{}
