// The conjunction of a violated constraint that is repaired, and its literal.
ghost use Rattle.std.specs.Prelude.{◌≡◌, ◌≤◌, ℕ, Decides, MatchBool, MatchOption, Some, length, slice_get, true};
ghost use Rattle.dsr_repair.specs.Literals.{AreTestsTrue, IsFirstFalse, IsFirstPassing, NoneIsFalse, NonePasses, ways_at};
ghost use Rattle.dsr_model.specs.Facts.{IsInModel};
ghost use Rattle.dsr_ir.specs.declared.updates.Template.{Template as TemplateOf};
ghost use Rattle.dsr_meaning.specs.Truth.{LiteralHolds};
ghost use Rattle.dsr_plan_theory.specs.declared.choices.Way.TheVariants.{By, Test};

use dsr_ir::{Binding, Conj, Constraint, Literal, Template};
use dsr_model::Model;
use dsr_plan_theory::{Row, Way};
use dsr_truth::literal;

/// A literal of a conjunction, by its place, with the template for it.
#[derive(Clone, Copy)]
pub struct ToRepair<'a> {
    pub place: u32,
    pub literal: &'a Literal,
    pub template: &'a Template,
}

// Whether the literal with this place is tested.
fn is_tested(ways: &[Way], place: usize) -> bool
    ensures { Decides result (slice_get ways.now place ≡ Some Test) }
{
    matches!(ways.get(place), Some(Way::Test))
}

// Whether the literal with this place is tested, and false.
fn is_failed_test(
    model: &Model,
    its: &Literal,
    ways: &[Way],
    place: usize,
    binding: &Binding,
) -> bool
    requires ordered { model.now.ordered ≡ true }
    ensures { MatchBool result ((slice_get ways.now place ≡ Some Test)
        × (LiteralHolds (IsInModel model.now) binding.now its.now → ⊥))
        (slice_get ways.now place ≡ Some Test → LiteralHolds (IsInModel model.now) binding.now its.now) }
{
    if is_tested(ways, place) {
        return !literal(model, its, binding);
    }
    false
}

// Whether the tested literals of the conjunction are true.
fn passes(model: &Model, conj: &Conj, ways: &[Way], binding: &Binding) -> bool
    requires ordered { model.now.ordered ≡ true }
    ensures { Decides result (AreTestsTrue (IsInModel model.now) binding.now conj.now.literals ways.now) }
{
    for (place, its) in conj.literals.items().iter().enumerate() {
        if is_failed_test(model, its, ways, place, binding) {
            return false;
        }
    }
    true
}

// The ways of a conjunction's literals.
fn ways_of(row: &Row, conj: usize) -> &[Way]
    ensures { result.now ≡ ways_at row.now conj }
{
    match row.ways.items().get(conj) {
        Some(ways) => ways.items(),
        None => &[],
    }
}

/// The first conjunction whose tested literals are true, with its place and the ways of its
/// literals.
pub fn first_passing<'a>(
    model: &Model,
    constraint: &'a Constraint,
    row: &'a Row,
    binding: &Binding,
) -> Option<(u32, &'a Conj, &'a [Way])>
    requires ordered { model.now.ordered ≡ true }
    requires few { length constraint.now.conjs ≤ 16 }
    ensures { MatchOption result (NonePasses (IsInModel model.now) binding.now constraint.now row.now)
        (λ found. IsFirstPassing (IsInModel model.now) binding.now constraint.now row.now
        found.0 found.1.now found.2.now) }
{
    for (place, conj) in constraint.conjs.items().iter().enumerate() {
        let ways = ways_of(row, place);
        if passes(model, conj, ways, binding) {
            return Some((place as u32, conj, ways));
        }
    }
    None
}

// The template for the literal with this place.
fn template_at(ways: &[Way], place: usize) -> Option<&Template>
    ensures { MatchOption result ((number : ℕ) (template : TemplateOf)
        → slice_get ways.now place ≡ Some (By number template) → ⊥)
        (λ template. (number : ℕ) × (slice_get ways.now place ≡ Some (By number template.now))) }
{
    match ways.get(place)? {
        Way::By(_, template) => Some(template),
        Way::Test => None,
    }
}

// The template for the literal with this place, where that is false.
fn false_template<'a>(
    model: &Model,
    its: &Literal,
    ways: &'a [Way],
    place: usize,
    binding: &Binding,
) -> Option<&'a Template>
    requires ordered { model.now.ordered ≡ true }
    ensures { MatchOption result ((number : ℕ) (template : TemplateOf)
        → slice_get ways.now place ≡ Some (By number template)
        → (LiteralHolds (IsInModel model.now) binding.now its.now → ⊥) → ⊥)
        (λ template. (number : ℕ) × (slice_get ways.now place ≡ Some (By number template.now))
        × (LiteralHolds (IsInModel model.now) binding.now its.now → ⊥)) }
{
    if literal(model, its, binding) {
        return None;
    }
    template_at(ways, place)
}

/// The first literal that has a template and is false, where one is: so the last one is false if
/// none before it is.
pub fn first_false<'a>(
    model: &Model,
    conj: &'a Conj,
    ways: &'a [Way],
    binding: &Binding,
) -> ToRepair<'a>
    requires ordered { model.now.ordered ≡ true }
    requires few { length conj.now.literals ≤ 8 }
    requires some { NoneIsFalse (IsInModel model.now) binding.now conj.now.literals ways.now → ⊥ }
    ensures { IsFirstFalse (IsInModel model.now) binding.now conj.now.literals ways.now
        result.place result.literal.now result.template.now }
{
    let Some((last, before)) = conj.literals.items().split_last() else {
        unreachable!();
    };
    for (place, its) in before.iter().enumerate() {
        if let Some(template) = false_template(model, its, ways, place, binding) {
            return ToRepair {
                place: place as u32,
                literal: its,
                template,
            };
        }
    }
    let Some(template) = template_at(ways, before.len()) else {
        unreachable!();
    };
    ToRepair {
        place: before.len() as u32,
        literal: last,
        template,
    }
}
