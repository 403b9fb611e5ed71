// What a template leaves open.
ghost use Rattle.std.specs.Prelude.{◌≡◌, ◌≤◌, ℕ, Decides, IfSome, MatchOption, None, Some, length, slice_get, true};
ghost use Rattle.dsr_repair_theory.specs.Choices as said;
ghost use Rattle.dsr_repair_theory.specs.Choices.{Adds, CountsNothing, IsEntryAt, IsNumberFor, IsPlace, IsToGo, TakesAway};
ghost use Rattle.dsr_repair.specs.Chosen.{IsUpdateBy};
ghost use Rattle.dsr_ir.specs.declared.tuples.Element.{Element as ElementOf};
ghost use Rattle.dsr_ir.specs.declared.tuples.Fact.{Fact as FactOf};
ghost use Rattle.dsr_ir.specs.declared.updates.Update.{Update as UpdateOf};
ghost use Rattle.dsr_meaning.specs.Truth.{HasVariable};
ghost use Rattle.dsr_model.specs.Facts.{IsInModel};

use dsr_ir::{
    At, Atom, Binding, Element, Fact, Goal, Instance, Measure, Pick, Place, Target, Template,
    Update, Write,
};
use dsr_model::Model;
use dsr_schema::element_of;

// Whether nothing is there that the atom counts.
fn counts_nothing(model: &Model, atom: &Atom, binding: &Binding) -> bool
    requires ordered { model.now.ordered ≡ true }
    ensures { Decides result (CountsNothing (IsInModel model.now) binding.now atom.now) }
{
    match atom {
        Atom::Count(measure, _, _) => model.greatest(measure, binding).is_none(),
        _ => false,
    }
}

/// Whether a template for the goal adds or sets.
pub fn adds(model: &Model, goal: Goal, atom: &Atom, binding: &Binding) -> bool
    requires ordered { model.now.ordered ≡ true }
    ensures { Decides result (Adds (IsInModel model.now) binding.now atom.now goal) }
{
    match goal {
        Goal::AddSet | Goal::AddTuple | Goal::SetValue | Goal::Supply => true,
        Goal::ExactlyOne => counts_nothing(model, atom, binding),
        Goal::RemoveSet | Goal::RemoveTuple | Goal::Trim => false,
    }
}

/// The fact that is to go so that the atom becomes false, or counts less.
pub fn fact_to_go(model: &Model, atom: &Atom, binding: &Binding) -> Option<Fact>
    requires ordered { model.now.ordered ≡ true }
    ensures { MatchOption result
        ((fact : FactOf) → IsToGo (IsInModel model.now) binding.now atom.now fact → ⊥)
        (IsToGo (IsInModel model.now) binding.now atom.now) }
{
    match atom {
        Atom::Member(var, set) => Some(Fact::Member(*set, element_of(binding, *var)?)),
        Atom::Pair(first, second, rel) => {
            let source = element_of(binding, *first)?;
            let target = element_of(binding, *second)?;
            Some(Fact::Pair(*rel, source, Target::Elem(target)))
        }
        Atom::Count(measure, _, _) => model.greatest(measure, binding),
        Atom::Value(_, _, _, _) => None,
    }
}

// Whether the update with this place takes facts away, in a template that is for the goal.
fn takes_away(goal: Goal, place: usize) -> bool
    ensures { Decides result (TakesAway goal place) }
{
    match goal {
        Goal::RemoveSet | Goal::RemoveTuple | Goal::Trim => true,
        Goal::ExactlyOne => place > 0,
        Goal::AddSet | Goal::AddTuple | Goal::SetValue | Goal::Supply => false,
    }
}

/// The first update of the template.
pub fn first_update(template: &Template) -> Option<&Update>
    ensures { MatchOption result (slice_get template.now.updates 0 ≡ None)
        (λ update. slice_get template.now.updates 0 ≡ Some update.now) }
{
    template.updates.items().first()
}

/// The first update of the template that takes away what a rule gives, with its place.
pub fn update_by(template: &Template, rule: u32) -> Option<(u32, &Update)>
    requires few { length template.now.updates ≤ 200 }
    ensures { MatchOption result
        ((n : ℕ) (update : UpdateOf) → IsUpdateBy template.now rule n update → ⊥)
        (λ found. IsUpdateBy template.now rule found.0 found.1.now) }
{
    for (place, update) in template.updates.items().iter().enumerate() {
        if update.rule == rule && takes_away(template.goal, place) {
            return Some((place as u32, update));
        }
    }
    None
}

/// The record that is written.
pub fn record_at(place: Place, binding: &Binding, stopped: Option<Instance>) -> Option<Element>
    ensures { MatchOption result ((e : ElementOf) → IsPlace binding.now stopped place e → ⊥)
        (IsPlace binding.now stopped place) }
{
    match place {
        Place::Head => Some(Element { pool: 0, slot: 0 }),
        Place::Of(var) => element_of(binding, var),
        Place::Deriver => Some(stopped?.elem),
    }
}

/// The entry that is written; 0 of a scalar.
pub fn entry_at(at: At, binding: &Binding, stopped: Option<Instance>) -> Option<u64>
    ensures { MatchOption result ((k : ℕ) → IsEntryAt binding.now stopped at k → ⊥)
        (IsEntryAt binding.now stopped at) }
{
    match at {
        At::Scalar => Some(0),
        At::SlotOf(var) => Some(u64::from(element_of(binding, var)?.slot)),
        At::Deriver => Some(stopped?.index),
    }
}

// What is counted so that its size is written.
fn written_size(writes: &[Write]) -> Option<Measure>
    ensures { result ≡ said.written_size writes.now }
{
    for write in writes {
        if let Pick::SizeOf(measure) = write.pick {
            return Some(measure);
        }
    }
    None
}

/// The size that is written; 0 where none is.
pub fn written_number(model: &Model, writes: &[Write], binding: &Binding) -> u64
    requires ordered { model.now.ordered ≡ true }
    requires counted { IfSome (said.written_size writes.now) (HasVariable binding.now) }
    ensures { IsNumberFor (IsInModel model.now) binding.now writes.now result }
{
    match written_size(writes) {
        Some(measure) => model.size(&measure, binding),
        None => 0,
    }
}
