// Whether a template is listed, by what each of its updates may change.
ghost use Rattle.std.specs.Prelude.{◌≡◌, ◌++◌, [], ◌∷◌, Decides, IfOk, length};
ghost use Rattle.dsr_compensate.specs.Taking.{AreEffectsOf, MayAllBeMade, MayAllServe};
ghost use Rattle.dsr_graph_theory.specs.Owners as owners;
ghost use Rattle.dsr_meaning.specs.Typed.{IsTypedAtom};
ghost use Rattle.dsr_compensate.specs.Owned.{IsSound, owner_of};

use crate::owner::Owner;
use dsr_ir::{Atom, Goal, NoMemory, Seq, Template, Update};
use dsr_update_theory::Effect;
use std::alloc::Global;

/// A template, with what each of its updates may change.
pub struct Judged {
    pub template: Template,
    /// What each update may change, in order.
    pub effects: Seq<Effect>,
}

impl Drop for Judged {
    fn drop(self) {
        let Judged {
            template: _,
            effects: _,
        } = self;
    }
}

// What the update with this place is for: of a template for exactly one the first supplies, and the
// others trim.
fn goal_at(goal: Goal, place: usize) -> Goal
    ensures { result ≡ owners.goal_at goal place }
{
    match goal {
        Goal::ExactlyOne => { if place == 0 { Goal::Supply } else { Goal::Trim } }
        _ => goal,
    }
}

/// Whether each of the template's updates can be made as it is judged.
pub fn may_all_be_made(owner: &Owner, template: &Template) -> bool
    requires sound { IsSound owner.now }
    ensures { Decides result
        (MayAllBeMade (owner_of owner.now) template.now.goal template.now.updates) }
{
    for update in template.updates.items() {
        if !owner.may_be_made(update) {
            return false;
        }
    }
    true
}

/// What each of the updates of a template for the goal may change.
pub fn effects_of(
    alloc: Global,
    owner: &Owner,
    goal: Goal,
    updates: &[Update],
) -> Result<Vec<Effect>, NoMemory>
    requires sound { IsSound owner.now }
    ensures { IfOk result (λ effects. AreEffectsOf (owner_of owner.now) goal updates.now effects.items) }
{
    let mut effects = Vec::new(alloc);
    for (place, update) in updates.iter().enumerate() {
        let effect = owner.effect(alloc, goal_at(goal, place), update)?;
        effects.push(effect)?;
    }
    Ok(effects)
}

/// Whether each of the updates of a template for the goal serves it.
pub fn may_all_serve(
    owner: &Owner,
    goal: Goal,
    atom: &Atom,
    updates: &[Update],
    effects: &[Effect],
) -> bool
    requires sound { IsSound owner.now }
    requires atom { IsTypedAtom owner.now.spec.now owner.now.constraint.now.quant atom.now }
    requires effects { AreEffectsOf (owner_of owner.now) goal updates.now effects.now }
    ensures { Decides result (MayAllServe (owner_of owner.now) goal atom.now updates.now) }
{
    for place in 0..updates.len() {
        if !owner.may_serve(goal, atom, place, &updates[place], &effects[place]) {
            return false;
        }
    }
    true
}
