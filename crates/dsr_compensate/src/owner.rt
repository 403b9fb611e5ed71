// A constraint with what its updates are judged by.
ghost use Rattle.std.specs.Prelude.{◌≡◌, ◌↔◌, ℕ, IfOk, IsTrue, Some, false, slice_get, slice_index_or};
ghost use Rattle.dsr_effect.specs.Told.{ChangesAtW};
ghost use Rattle.dsr_goal.specs.Knowing.{known_by};
ghost use Rattle.dsr_ir.specs.declared.rules.Rule.{Rule as RuleOf};
ghost use Rattle.dsr_update_theory.specs.Templates.{AreRawOf, TellsKnown};
ghost use Rattle.dsr_update_theory.specs.declared.effects.Direction.TheVariants.{Gain};
ghost use Rattle.dsr_graph_theory.specs.Owners.{change_of};
ghost use Rattle.dsr_meaning.specs.Typed.{IsTyped};
ghost use Rattle.dsr_compensate.specs.Judged.{IsEffectOf};
ghost use Rattle.dsr_compensate.specs.Owned.{IsSound, owner_of};
ghost use Rattle.dsr_update_theory.specs.Facts as gathered;

use dsr_effect::Context;
use dsr_facts::Facts;
use dsr_goal::{Known, raw_of};
use dsr_ir::{Constraint, Goal, NoMemory, Spec, Template, Update};
use dsr_update_theory::Effect;
use std::alloc::Global;

/// A constraint of a specification, with what is found once for all updates of its literals. These
/// are the facts that it uses, the sets of which its variables' records are known to be members,
/// and for each set whether it has no member in common with these.
#[derive(Drop)]
pub struct Owner<'a> {
    pub(crate) spec: &'a Spec,
    pub(crate) number: u32,
    pub(crate) constraint: &'a Constraint,
    pub(crate) context: Context<'a>,
    pub(crate) known: Known,
}

impl<'a> Owner<'a> {
    /// The constraint with this number, which uses these facts.
    pub fn new(
        spec: &'a Spec,
        facts: &'a Facts,
        number: u32,
        constraint: &'a Constraint,
    ) -> Owner<'a>
        requires typed { IsTyped spec.now }
        requires constraint { slice_get spec.now.constraints number ≡ Some constraint.now }
        requires facts { facts.now.exclusive ≡ gathered.exclusive spec.now number }
        ensures spec { (owner_of result).spec ≡ spec.now }
        ensures number { (owner_of result).number ≡ number }
        ensures constraint { (owner_of result).constraint ≡ constraint.now }
        ensures sound { IsSound result }
    {
        let known = Known::new(spec, &constraint.quant);
        let context = Context::new(spec, facts, &constraint.quant);
        Owner {
            spec,
            number,
            constraint,
            context,
            known,
        }
    }

    /// The specification.
    pub fn spec(&self) -> &Spec
        ensures { result.now ≡ (owner_of self.now).spec }
    {
        self.spec
    }

    /// The number of the constraint.
    pub fn number(&self) -> u32
        ensures { result ≡ (owner_of self.now).number }
    {
        self.number
    }

    /// Of which sets the constraint's variables are known to be members.
    pub fn known(&self) -> &Known
        requires sound { IsSound self.now }
        ensures { TellsKnown (owner_of self.now).spec (owner_of self.now).constraint.quant
            (known_by result.now) }
    {
        &self.known
    }

    /// The constraint.
    pub fn constraint(&self) -> &Constraint
        ensures { result.now ≡ (owner_of self.now).constraint }
    {
        self.constraint
    }

    /// The updates that are tried for the literal with these numbers; none where there is no such
    /// literal.
    pub fn raw(&self, alloc: Global, conj: u32, literal: u32) -> Result<Vec<Template>, NoMemory>
        requires sound { IsSound self.now }
        ensures { IfOk result (λ templates. AreRawOf (owner_of self.now).spec (owner_of self.now).constraint
            conj literal templates.items) }
    {
        raw_of(
            alloc,
            self.spec,
            &self.known,
            self.constraint,
            conj,
            literal,
        )
    }

    /// For each rule whether the update may make it give something new at the written record.
    pub fn gaining_rules(&self, goal: Goal, update: &Update) -> [bool; 128]
        requires sound { IsSound self.now }
        ensures { (number : ℕ) (rule : RuleOf)
            → slice_get (owner_of self.now).spec.rules number ≡ Some rule
            → IsTrue (slice_index_or result number false)
            ↔ ChangesAtW (change_of (owner_of self.now) goal update.now) rule Gain }
    {
        self.context.gaining_rules(goal, update)
    }

    /// What an update of the constraint may change, for this goal. In a template for exactly one,
    /// the goal of the first update is to supply, and that of the others to trim.
    pub fn effect(&self, alloc: Global, goal: Goal, update: &Update) -> Result<Effect, NoMemory>
        requires sound { IsSound self.now }
        ensures { IfOk result (IsEffectOf (change_of (owner_of self.now) goal update.now)) }
    {
        self.context.effect(alloc, goal, update)
    }
}
