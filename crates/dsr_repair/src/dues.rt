// The step that is due.
ghost use Rattle.std.specs.Prelude.{◌≡◌, MatchOption, None, Some, slice_get, true};
ghost use Rattle.dsr_repair.specs.Chosen.{AreDecided, IsChosenFor, IsDueOf, IsStepFor};
ghost use Rattle.dsr_repair.specs.Cursors.{IsCursorOn};
ghost use Rattle.dsr_repair.specs.Violations.{IsNextViolation};
ghost use Rattle.dsr_repair_laws.specs.Chosen.{IsComplete};
ghost use Rattle.dsr_fixpoint.specs.Models.{IsModelOf, IsPreparedFor};
ghost use Rattle.dsr_meaning.specs.Consistency.{AreSatisfied, IsConsistent};
ghost use Rattle.dsr_meaning.specs.Models.{IsFact};
ghost use Rattle.dsr_meaning.specs.Typed.{IsTyped};
ghost use Rattle.dsr_model.specs.Facts.{IsInModel};
ghost use Rattle.dsr_plan_theory.specs.Plans.{IsPlan};
ghost use Rattle.dsr_step_theory.specs.Images.{IsImageOf};
ghost use Rattle.dsr_repair_theory.specs.Turns.{IsTurn};

use crate::bindings::{Violation, next_violation};
use crate::choosing::{
    adds, entry_at, fact_to_go, first_update, record_at, update_by, written_number,
};
use crate::cursors::{Cursor, next_from};
use crate::fresh::fresh_for;
use crate::literals::{ToRepair, first_false, first_passing};
use dsr_fixpoint::deriver;
use dsr_image::ImageBytes;
use dsr_ir::{Binding, Constraint, Element, Instance, Layout, Spec, Update};
use dsr_model::Model;
use dsr_plan_theory::{Choice, Plan, Row};
use dsr_repair_theory::{Need, Turn};
use dsr_step_theory::Step;

/// The literal that is to become true next.
#[derive(Clone, Copy)]
pub struct DueLiteral<'a> {
    pub constraint: u32,
    pub binding: Binding,
    pub conj: u32,
    pub repaired: ToRepair<'a>,
}

/// The update that is chosen, by its place in its template, with the instance that it stops.
#[derive(Clone, Copy)]
pub struct Chosen<'a> {
    pub place: u32,
    pub update: &'a Update,
    pub stopped: Option<Instance>,
}

fn constraint_at(spec: &Spec, number: u32) -> Option<&Constraint>
    ensures { MatchOption result (slice_get spec.now.constraints number ≡ None)
        (λ c. slice_get spec.now.constraints number ≡ Some c.now) }
{
    spec.constraints.items().get(number as usize)
}

fn row_at(choice: &Choice, number: u32) -> Option<&Row>
    ensures { MatchOption result (slice_get choice.now.rows number ≡ None)
        (λ row. slice_get choice.now.rows number ≡ Some row.now) }
{
    choice.rows.items().get(number as usize)
}

// The literal of the violated constraint that is to become true next.
fn due_at<'a>(
    spec: &'a Spec,
    choice: &'a Choice,
    model: &Model,
    violation: Violation,
) -> DueLiteral<'a>
    requires ordered { model.now.ordered ≡ true }
    requires typed { IsTyped spec.now }
    requires plan { IsPlan spec.now choice.now }
    requires decided { AreDecided (IsInModel model.now) }
    requires next { IsNextViolation (IsInModel model.now) spec.now choice.now violation }
    ensures { IsDueOf (IsInModel model.now) spec.now choice.now result }
{
    let Some(constraint) = constraint_at(spec, violation.constraint) else {
        unreachable!();
    };
    let Some(row) = row_at(choice, violation.constraint) else {
        unreachable!();
    };
    let Some((conj, its, ways)) = first_passing(model, constraint, row, &violation.binding) else {
        unreachable!();
    };
    DueLiteral {
        constraint: violation.constraint,
        binding: violation.binding,
        conj,
        repaired: first_false(model, its, ways, &violation.binding),
    }
}

// The literal that is to become true next; none where the image is consistent.
fn next_due<'a, I: ImageBytes>(
    spec: &'a Spec,
    choice: &'a Choice,
    _layout: &Layout,
    _image: &I,
    model: &Model,
    next: Option<Violation>,
) -> Option<DueLiteral<'a>>
    requires plan { IsPlan spec.now choice.now }
    requires image { IsImageOf spec.now _layout.now (I.ImageBytes.bytes _image.now) }
    requires prepared { IsPreparedFor spec.now _layout.now model.now }
    requires model { IsModelOf spec.now _layout.now (I.ImageBytes.bytes _image.now) model.now }
    requires next { MatchOption next (AreSatisfied (IsInModel model.now) spec.now)
        (IsNextViolation (IsInModel model.now) spec.now choice.now) }
    ensures { MatchOption result
        (IsConsistent spec.now _layout.now (I.ImageBytes.bytes _image.now))
        (IsDueOf (IsFact spec.now _layout.now (I.ImageBytes.bytes _image.now)) spec.now choice.now) }
{
    match next {
        Some(violation) => Some(due_at(spec, choice, model, violation)),
        None => None,
    }
}

// The update that is chosen for the literal.
fn chosen_for<'a, I: ImageBytes>(
    spec: &Spec,
    _choice: &Choice,
    layout: &Layout,
    image: &I,
    model: &Model,
    due: &DueLiteral<'a>,
) -> Chosen<'a>
    requires plan { IsPlan spec.now _choice.now }
    requires image { IsImageOf spec.now layout.now (I.ImageBytes.bytes image.now) }
    requires prepared { IsPreparedFor spec.now layout.now model.now }
    requires model { IsModelOf spec.now layout.now (I.ImageBytes.bytes image.now) model.now }
    requires due { IsDueOf (IsFact spec.now layout.now (I.ImageBytes.bytes image.now))
        spec.now _choice.now due.now }
    ensures { IsChosenFor spec.now layout.now (I.ImageBytes.bytes image.now) due.now result }
{
    let (template, atom) = (due.repaired.template, &due.repaired.literal.atom);
    if adds(model, template.goal, atom, &due.binding) {
        let Some(update) = first_update(template) else {
            unreachable!();
        };
        return Chosen {
            place: 0,
            update,
            stopped: None,
        };
    }
    let Some(fact) = fact_to_go(model, atom, &due.binding) else {
        unreachable!();
    };
    let Some(instance) = deriver(model, spec, layout, image, &fact) else {
        unreachable!();
    };
    let Some((place, update)) = update_by(template, instance.rule) else {
        unreachable!();
    };
    Chosen {
        place,
        update,
        stopped: Some(instance),
    }
}

// What is needed for the literal where the pool's supply is empty.
fn need_of(due: &DueLiteral, pool: u32) -> Need
    ensures { result ≡ record {
      pool = pool;
      constraint = due.now.constraint;
      binding = due.now.binding;
      conj = due.now.conj;
      literal = due.now.repaired.place;
    } }
{
    Need {
        pool,
        constraint: due.constraint,
        binding: due.binding,
        conj: due.conj,
        literal: due.repaired.place,
    }
}

// The step by the update that is chosen.
fn step_of(
    _spec: &Spec,
    model: &Model,
    due: &DueLiteral,
    chosen: &Chosen,
    fresh: Option<Element>,
) -> Step
    requires ordered { model.now.ordered ≡ true }
    requires complete { IsComplete _spec.now due.now.binding chosen.now.stopped chosen.now.update.now }
    ensures { IsStepFor (IsInModel model.now) due.now chosen.now fresh result }
{
    let Some(elem) = record_at(chosen.update.place, &due.binding, chosen.stopped) else {
        unreachable!();
    };
    let Some(index) = entry_at(chosen.update.at, &due.binding, chosen.stopped) else {
        unreachable!();
    };
    Step {
        constraint: due.constraint,
        binding: due.binding,
        conj: due.conj,
        literal: due.repaired.place,
        rule: chosen.update.rule,
        elem,
        index,
        number: written_number(model, chosen.update.writes.items(), &due.binding),
        fresh,
        update: chosen.place,
    }
}

// What is due by a choice that is a plan, where this is the violation that is to be repaired next.
fn due_by<I: ImageBytes>(
    spec: &Spec,
    choice: &Choice,
    layout: &Layout,
    image: &I,
    model: &Model,
    next: Option<Violation>,
) -> Turn
    requires plan { IsPlan spec.now choice.now }
    requires image { IsImageOf spec.now layout.now (I.ImageBytes.bytes image.now) }
    requires prepared { IsPreparedFor spec.now layout.now model.now }
    requires model { IsModelOf spec.now layout.now (I.ImageBytes.bytes image.now) model.now }
    requires next { MatchOption next (AreSatisfied (IsInModel model.now) spec.now)
        (IsNextViolation (IsInModel model.now) spec.now choice.now) }
    ensures { IsTurn spec.now choice.now layout.now (I.ImageBytes.bytes image.now) result }
{
    let Some(due) = next_due(spec, choice, layout, image, model, next) else {
        return Turn::Done;
    };
    let chosen = chosen_for(spec, choice, layout, image, model, &due);
    match fresh_for(model, spec, layout, chosen.update) {
        Ok(fresh) => Turn::Step(step_of(spec, model, &due, &chosen, fresh)),
        Err(pool) => Turn::Empty(need_of(&due, pool)),
    }
}

// What is due by a choice that is a plan, found from the first binding on.
fn due_at_first<I: ImageBytes>(
    spec: &Spec,
    choice: &Choice,
    layout: &Layout,
    image: &I,
    model: &Model,
) -> Turn
    requires plan { IsPlan spec.now choice.now }
    requires image { IsImageOf spec.now layout.now (I.ImageBytes.bytes image.now) }
    requires prepared { IsPreparedFor spec.now layout.now model.now }
    requires model { IsModelOf spec.now layout.now (I.ImageBytes.bytes image.now) model.now }
    ensures { IsTurn spec.now choice.now layout.now (I.ImageBytes.bytes image.now) result }
{
    let next = next_violation(model, spec, choice);
    due_by(spec, choice, layout, image, model, next)
}

// What is due by a choice that is a plan, found from a cursor on.
fn due_at_cursor<I: ImageBytes>(
    spec: &Spec,
    choice: &Choice,
    layout: &Layout,
    image: &I,
    model: &Model,
    cursor: &Cursor,
) -> Turn
    requires plan { IsPlan spec.now choice.now }
    requires image { IsImageOf spec.now layout.now (I.ImageBytes.bytes image.now) }
    requires prepared { IsPreparedFor spec.now layout.now model.now }
    requires model { IsModelOf spec.now layout.now (I.ImageBytes.bytes image.now) model.now }
    requires cursor { IsCursorOn spec.now choice.now layout.now (I.ImageBytes.bytes image.now) cursor.now }
    ensures { IsTurn spec.now choice.now layout.now (I.ImageBytes.bytes image.now) result }
{
    let next = next_from(model, spec, choice, cursor);
    due_by(spec, choice, layout, image, model, next)
}

/// What is due on an image by a plan, once the model is that of the image. Takes no memory.
pub fn due<I: ImageBytes>(plan: &Plan, layout: &Layout, image: &I, model: &Model) -> Turn
    requires image { IsImageOf plan.now.0 layout.now (I.ImageBytes.bytes image.now) }
    requires prepared { IsPreparedFor plan.now.0 layout.now model.now }
    requires model { IsModelOf plan.now.0 layout.now (I.ImageBytes.bytes image.now) model.now }
    ensures { IsTurn plan.now.0 plan.now.1 layout.now (I.ImageBytes.bytes image.now) result }
{
    due_at_first(plan.spec(), plan.choice(), layout, image, model)
}

/// As `due`, where nothing is violated before the place at which the cursor stands: the search
/// begins there.
pub fn due_from<I: ImageBytes>(
    plan: &Plan,
    layout: &Layout,
    image: &I,
    model: &Model,
    cursor: &Cursor,
) -> Turn
    requires image { IsImageOf plan.now.0 layout.now (I.ImageBytes.bytes image.now) }
    requires prepared { IsPreparedFor plan.now.0 layout.now model.now }
    requires model { IsModelOf plan.now.0 layout.now (I.ImageBytes.bytes image.now) model.now }
    requires cursor { IsCursorOn plan.now.0 plan.now.1 layout.now (I.ImageBytes.bytes image.now) cursor.now }
    ensures { IsTurn plan.now.0 plan.now.1 layout.now (I.ImageBytes.bytes image.now) result }
{
    due_at_cursor(plan.spec(), plan.choice(), layout, image, model, cursor)
}
