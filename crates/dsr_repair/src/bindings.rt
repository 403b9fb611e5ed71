// The violated binding that is to be repaired next.
ghost use Rattle.std.specs.Prelude.{◌≡◌, ◌≤◌, ◌+◌, Decides, IsSomeAnd, MatchOption, Some, length, slice_get, true};
ghost use Rattle.dsr_repair.specs.Violations.{IsBestBefore, IsNextViolation};
ghost use Rattle.dsr_meaning.specs.Consistency.{AreSatisfied};
ghost use Rattle.dsr_model.specs.Facts.{IsInModel};
ghost use Rattle.dsr_plan_theory.specs.declared.choices.Choice.{Choice as ChoiceOf};
ghost use Rattle.dsr_meaning.specs.Limits.{most_constraints};

use dsr_ir::{Binding, Spec};
use dsr_model::Model;
use dsr_plan_theory::{Choice, Row};
use dsr_truth::first_violated;

/// A violated binding of a constraint.
#[derive(Clone, Copy)]
pub struct Violation {
    pub constraint: u32,
    pub binding: Binding,
}

/// The least violated binding of a constraint, with the level on which that stands.
#[derive(Clone, Copy)]
pub struct Lowest {
    pub level: u32,
    pub violation: Violation,
}

// Whether the best violation so far stands on the level or on a lower one.
fn is_as_low(best: Option<Lowest>, level: u32) -> bool
    ensures { Decides result (IsSomeAnd best (λ found. found.level ≤ level)) }
{
    match best {
        Some(found) => found.level <= level,
        None => false,
    }
}

// The best violation of the constraints up to this one, by the best of those before it.
fn better(
    model: &Model,
    spec: &Spec,
    number: u32,
    row: &Row,
    best: Option<Lowest>,
) -> Option<Lowest>
    requires ordered { model.now.ordered ≡ true }
    ensures { (choice : ChoiceOf) → slice_get choice.rows number ≡ Some row.now
        → IsBestBefore (IsInModel model.now) spec.now choice number best
        → IsBestBefore (IsInModel model.now) spec.now choice (number + 1) result }
{
    if is_as_low(best, row.level) {
        return best;
    }
    match first_violated(model, spec, &[number]) {
        Some((constraint, binding)) => Some(Lowest {
            level: row.level,
            violation: Violation {
                constraint,
                binding,
            },
        }),
        None => best,
    }
}

/// The violation that is to be repaired next; none where nothing is violated.
pub fn next_violation(model: &Model, spec: &Spec, choice: &Choice) -> Option<Violation>
    requires ordered { model.now.ordered ≡ true }
    requires as_many { length choice.now.rows ≡ length spec.now.constraints }
    requires few { length spec.now.constraints ≤ most_constraints }
    ensures { MatchOption result (AreSatisfied (IsInModel model.now) spec.now)
        (IsNextViolation (IsInModel model.now) spec.now choice.now) }
{
    let mut best = None;
    for (number, row) in choice.rows.items().iter().enumerate() {
        best = better(model, spec, number as u32, row, best);
    }
    match best {
        Some(found) => Some(found.violation),
        None => None,
    }
}
