// Laws on models and on what is true of them, each the contract of a function.
ghost use Rattle.std.specs.Prelude.{◌≡◌, ◌↔◌, [], ℕ, List, Bool, IsTrue};
ghost use Rattle.dsr_ir.specs.declared.constraints.Measure.{Measure};
ghost use Rattle.dsr_ir.specs.declared.declarations.Spec.{Spec};
ghost use Rattle.dsr_ir.specs.declared.layouts.Layout.{Layout};
ghost use Rattle.dsr_ir.specs.declared.tuples.Binding.{Binding};
ghost use Rattle.dsr_ir.specs.declared.tuples.Fact.{Fact};
ghost use Rattle.dsr_ir.specs.declared.tuples.Instance.{Instance};
ghost use Rattle.dsr_meaning.specs.Consistency.{AreViolations, BoundConstraint, IsConsistent, IsFirstViolated};
ghost use Rattle.dsr_meaning.specs.Legal.{IsLegalLayout};
ghost use Rattle.dsr_meaning.specs.Models.{IsClosed, IsDerived, IsDerivedBy, IsFact};
ghost use Rattle.dsr_meaning.specs.Placeable.{IsPlaceable};
ghost use Rattle.dsr_meaning.specs.Truth.{HasSize};
ghost use Rattle.dsr_meaning.specs.Typed.{IsTyped};

/// The fields of a typed specification can be placed.
pub fn typed_specifications_are_placeable()
    ensures { (spec : Spec) → IsTyped spec → IsPlaceable spec }
{}

/// On a legal layout an active instance gives one fact.
pub fn instances_give_one_fact()
    ensures { (spec : Spec) (layout : Layout) (bytes : List ℕ) → IsLegalLayout layout →
        (i : Instance) (a b : Fact) →
        IsDerivedBy spec layout bytes i a → IsDerivedBy spec layout bytes i b → a ≡ b }
{}

/// What rules give from the facts at the ends of chains are such facts again.
pub fn models_are_closed()
    ensures { (spec : Spec) (layout : Layout) (bytes : List ℕ) →
        IsClosed spec layout bytes (IsDerived spec layout bytes) }
{}

/// The facts at the ends of chains belong to each set of facts that rules don't leave.
pub fn models_are_least()
    ensures { (spec : Spec) (layout : Layout) (bytes : List ℕ) (has : Fact → Bool) →
        IsClosed spec layout bytes (λ fact. IsTrue (has fact)) → (fact : Fact) → IsDerived spec layout bytes fact → IsTrue (has fact) }
{}

/// A set, or a variable under a relation, has at most one size.
pub fn sizes_are_unique()
    ensures { (spec : Spec) (layout : Layout) (bytes : List ℕ) (b : Binding) (measure : Measure) (n m : ℕ) →
        HasSize (IsFact spec layout bytes) b measure n → HasSize (IsFact spec layout bytes) b measure m → n ≡ m }
{}

/// An image is consistent exactly where no binding stands in its list of violated ones.
pub fn violations_tell_consistency()
    ensures { (spec : Spec) (layout : Layout) (bytes : List ℕ) →
        AreViolations (IsFact spec layout bytes) spec [] ↔ IsConsistent spec layout bytes }
{}

/// The violated bindings of an image have at most one list.
pub fn violations_are_unique()
    ensures { (spec : Spec) (layout : Layout) (bytes : List ℕ) (vs ws : List BoundConstraint) →
        AreViolations (IsFact spec layout bytes) spec vs → AreViolations (IsFact spec layout bytes) spec ws → vs ≡ ws }
{}

/// At most one violated binding comes first, whatever the order of constraints.
pub fn first_violated_is_unique()
    ensures { (spec : Spec) (layout : Layout) (bytes : List ℕ) (order : List ℕ) (v w : BoundConstraint) →
        IsFirstViolated (IsFact spec layout bytes) spec order v → IsFirstViolated (IsFact spec layout bytes) spec order w → v ≡ w }
{}
