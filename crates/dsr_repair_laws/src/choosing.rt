// All that a step leaves open is there.
ghost use Rattle.std.specs.Prelude.{◌≡◌, ◌≤◌, ℕ, List, Some, Option, length, slice_get};
ghost use Rattle.dsr_repair_theory.specs.Choices.{Adds, IsToGo, IsUpdateAt, TakesAway};
ghost use Rattle.dsr_repair_laws.specs.Chosen.{IsComplete};
ghost use Rattle.dsr_ir.specs.declared.constraints.Literal.{Literal};
ghost use Rattle.dsr_ir.specs.declared.declarations.Spec.{Spec};
ghost use Rattle.dsr_ir.specs.declared.layouts.Layout.{Layout};
ghost use Rattle.dsr_ir.specs.declared.tuples.Fact.{Fact};
ghost use Rattle.dsr_ir.specs.declared.tuples.Instance.{Instance};
ghost use Rattle.dsr_ir.specs.declared.updates.Template.{Template};
ghost use Rattle.dsr_ir.specs.declared.updates.Update.{Update};
ghost use Rattle.dsr_meaning.specs.Consistency.{BoundConstraint};
ghost use Rattle.dsr_meaning.specs.Models.{IsDerived, IsDerivedBy, IsFact};
ghost use Rattle.dsr_plan_theory.specs.Plans.{IsPlan};
ghost use Rattle.dsr_plan_theory.specs.declared.choices.Choice.{Choice};
ghost use Rattle.dsr_repair_theory.specs.Due.{IsDue};
ghost use Rattle.dsr_step_theory.specs.Images.{IsImageOf};

/// Where the template of the literal that is to become true next adds nothing, there is a fact that
/// is to go, and a chain of instances gives it.
pub fn facts_to_go_are_there()
    ensures { (spec : Spec) (choice : Choice) (layout : Layout) (bytes : List ℕ)
        (v : BoundConstraint)
        (conj literal : ℕ) (its : Literal) (template : Template) → IsImageOf spec layout bytes
        → IsPlan spec choice
        → IsDue (IsFact spec layout bytes) spec choice v conj literal its template
        → (Adds (IsFact spec layout bytes) v.binding its.atom template.goal → ⊥)
        → (fact : Fact) × IsToGo (IsFact spec layout bytes) v.binding its.atom fact
        × IsDerived spec layout bytes fact }
{}

/// Where the template of the literal that is to become true next adds, it has a first update; where
/// it takes a fact away, it has an update by the rule of each instance that gives the fact.
pub fn updates_are_there()
    ensures adds { (spec : Spec) (choice : Choice) (layout : Layout) (bytes : List ℕ)
        (v : BoundConstraint)
        (conj literal : ℕ) (its : Literal) (template : Template) → IsImageOf spec layout bytes
        → IsPlan spec choice
        → IsDue (IsFact spec layout bytes) spec choice v conj literal its template
        → Adds (IsFact spec layout bytes) v.binding its.atom template.goal
        → (update : Update) × (slice_get template.updates 0 ≡ Some update) }
    ensures takes_away { (spec : Spec) (choice : Choice) (layout : Layout) (bytes : List ℕ)
        (v : BoundConstraint)
        (conj literal : ℕ) (its : Literal) (template : Template) (fact : Fact) (i : Instance)
        → IsImageOf spec layout bytes
        → IsPlan spec choice
        → IsDue (IsFact spec layout bytes) spec choice v conj literal its template
        → (Adds (IsFact spec layout bytes) v.binding its.atom template.goal → ⊥)
        → IsToGo (IsFact spec layout bytes) v.binding its.atom fact
        → IsDerivedBy spec layout bytes i fact
        → (n : ℕ) × (update : Update) × TakesAway template.goal n
        × (slice_get template.updates n ≡ Some update) × (update.rule ≡ i.rule) }
{}

/// Of the update that is chosen for a literal that is due, the record and the entry are there, the
/// variable whose size is written is bound, and the pool of the fresh record has a supply.
pub fn choices_are_complete()
    ensures { (spec : Spec) (choice : Choice) (layout : Layout) (bytes : List ℕ)
        (v : BoundConstraint)
        (conj literal : ℕ) (its : Literal) (template : Template) (n : ℕ) (update : Update)
        (stopped : Option Instance) → IsImageOf spec layout bytes
        → IsPlan spec choice
        → IsDue (IsFact spec layout bytes) spec choice v conj literal its template
        → IsUpdateAt spec layout bytes v.binding its.atom template n update stopped
        → IsComplete spec v.binding stopped update }
{}

/// A template that is due has few updates: one that adds, one for each rule of a symbol, or both.
pub fn templates_have_few_updates()
    ensures { (spec : Spec) (choice : Choice) (layout : Layout) (bytes : List ℕ)
        (v : BoundConstraint)
        (conj literal : ℕ) (its : Literal) (template : Template) → IsImageOf spec layout bytes
        → IsPlan spec choice
        → IsDue (IsFact spec layout bytes) spec choice v conj literal its template
        → length template.updates ≤ 200 }
{}
