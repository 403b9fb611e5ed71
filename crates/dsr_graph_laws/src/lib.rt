//! That the repair dependence graph names whatever a template may break or falsify: laws on
//! applications.
//!
//! The functions do nothing when they run. Each carries its law as its contract.
#![tactic(auto)]

ghost use Rattle.std.specs.Prelude.{◌≡◌, ◌≢◌, ◌↔◌, ℕ, nat_eq, None, Some, slice_get};
ghost use Rattle.dsr_graph_theory.specs.Breaks.{Breaks, Falsifies, MayBreakBy, SomeUpdate};
ghost use Rattle.dsr_graph_theory.specs.Causes.{constraint_causes};
ghost use Rattle.dsr_graph_theory.specs.declared.causes.Cause.{Cause};
ghost use Rattle.dsr_graph_theory.specs.declared.causes.Reason.{Reason};
ghost use Rattle.dsr_graph_laws.specs.Listed.{IsApplicationOf, IsListedWay, StaysTrue, ViolatesNoMore};
ghost use Rattle.dsr_ir.specs.declared.constraints.Constraint.{Constraint};
ghost use Rattle.dsr_ir.specs.declared.constraints.Literal.{Literal};
ghost use Rattle.dsr_ir.specs.declared.tuples.Binding.{Binding};
ghost use Rattle.dsr_ir.specs.declared.updates.Template.{Template};
ghost use Rattle.dsr_graph_theory.specs.Owners.{Owner};
ghost use Rattle.dsr_meaning.specs.Consistency.{IsViolated};
ghost use Rattle.dsr_meaning.specs.Counting.{IsIn};
ghost use Rattle.dsr_meaning.specs.Models.{IsFact};
ghost use Rattle.dsr_meaning.specs.Truth.{LiteralHolds};
ghost use Rattle.dsr_plan_theory.specs.Plans.{owner_at};
ghost use Rattle.dsr_template_laws.specs.Judging.{Application, IsListed, owner_of};
ghost use Rattle.dsr_template_laws.specs.Tried.{IsTried};
ghost use Rattle.dsr_update_theory.specs.Templates.{literal_at};

/// Where a template that is tried for a literal falsifies no other literal of the conjunction, no
/// application of one of its updates, which can be made as it is judged, makes another literal of
/// the conjunction false that was true, under any binding.
pub fn tried_updates_falsify_nothing_else()
    ensures { (a : Application) → IsTried a
        → Falsifies (owner_of a) a.step.conj a.step.literal a.template None
        → (n : ℕ) (literal : Literal) (b : Binding) → n ≢ a.step.literal
        → literal_at a.applied.violated.constraint a.step.conj n ≡ Some literal
        → LiteralHolds (IsFact a.spec a.layout a.old) b literal
        → LiteralHolds (IsFact a.spec a.layout a.new) b literal }
{}

/// Where a template that is tried for a literal breaks a constraint for no reason, each binding of
/// the constraint that is violated after an application of one of the template's updates, which can
/// be made as it is judged, was so before.
pub fn tried_updates_break_nothing()
    ensures { (a : Application) → IsTried a → (broken : ℕ) (b : Binding)
        → (violated : IsViolated (IsFact a.spec a.layout a.new) a.spec
        (record { constraint = broken; binding = b }))
        → Breaks (owner_of a) (owner_at a.spec broken violated.constraint) a.template None
        → IsViolated (IsFact a.spec a.layout a.old) a.spec
        (record { constraint = broken; binding = b }) }
{}

/// Where a listed template falsifies no other literal of the conjunction, no application of one of
/// its updates makes another literal of the conjunction false that was true; and where it breaks a
/// constraint for no reason, each binding of the constraint that is violated afterwards was so
/// before.
pub fn listed_updates_break_and_falsify_nothing()
    ensures falsifies { (a : Application) (number : ℕ) → IsListed a number
        → Falsifies (owner_of a) a.step.conj a.step.literal a.template None
        → (n : ℕ) (literal : Literal) (b : Binding) → n ≢ a.step.literal
        → literal_at a.applied.violated.constraint a.step.conj n ≡ Some literal
        → LiteralHolds (IsFact a.spec a.layout a.old) b literal
        → LiteralHolds (IsFact a.spec a.layout a.new) b literal }
    ensures breaks { (a : Application) (number : ℕ) → IsListed a number → (broken : ℕ) (b : Binding)
        → (violated : IsViolated (IsFact a.spec a.layout a.new) a.spec
        (record { constraint = broken; binding = b }))
        → Breaks (owner_of a) (owner_at a.spec broken violated.constraint) a.template None
        → IsViolated (IsFact a.spec a.layout a.old) a.spec
        (record { constraint = broken; binding = b }) }
{}

/// Whoever asked of a listed template why it breaks another constraint, and was told that it
/// doesn't, has this of each application of its updates: no binding of that constraint is violated
/// afterwards that wasn't before.
pub fn ways_that_break_nothing_violate_no_more()
    ensures { (owner : Owner) (conj literal way : ℕ) (template : Template)
        → IsListedWay owner conj literal way template
        → (other : ℕ) (its : Constraint) → slice_get owner.spec.constraints other ≡ Some its
        → Breaks owner (owner_at owner.spec other its) template None
        → (a : Application) → IsApplicationOf owner conj literal template a
        → ViolatesNoMore a other }
{}

/// Whoever asked which other literal of the conjunction a listed template may falsify, and was told
/// that there is none, has this of each application of its updates: each other literal stays true
/// where it was.
pub fn ways_that_falsify_nothing_keep_literals()
    ensures { (owner : Owner) (conj literal way : ℕ) (template : Template)
        → IsListedWay owner conj literal way template → Falsifies owner conj literal template None
        → (a : Application) → IsApplicationOf owner conj literal template a
        → (n : ℕ) (its : Literal) → n ≢ literal → literal_at owner.constraint conj n ≡ Some its
        → StaysTrue a its }
{}

/// A template breaks a constraint for no reason exactly where no reason is the first one, which is
/// where no cause of the constraint may break it. It falsifies no literal exactly where no literal
/// is the first one that it falsifies.
pub fn no_reason_is_none()
    ensures breaks { (owner other : Owner) (template : Template)
        → Breaks owner other template None
        ↔ ((reason : Reason) → Breaks owner other template (Some reason) → ⊥) }
    ensures causes { (owner other : Owner) (template : Template)
        → Breaks owner other template None
        ↔ ((cause : Cause)
        → IsIn cause (constraint_causes (nat_eq owner.number other.number) other.constraint)
        → SomeUpdate owner template (MayBreakBy owner other cause) → ⊥) }
    ensures falsifies { (owner : Owner) (conj own : ℕ) (template : Template)
        → Falsifies owner conj own template None
        ↔ ((n : ℕ) → Falsifies owner conj own template (Some n) → ⊥) }
{}
