// Whether an update changes nothing that would undo what it is for.
ghost use Rattle.std.specs.Prelude.{◌≡◌, ◌||◌, ℕ, Decides, not};
ghost use Rattle.dsr_ir.specs.declared.constraints.Atom.TheVariants.{Count};
ghost use Rattle.dsr_ir.specs.declared.rules.Op.{Op as OpOf};
ghost use Rattle.dsr_graph_theory.specs.Owners as owners;
ghost use Rattle.dsr_graph_theory.specs.Owners.{Keeps, KeepsPremise, change_of, goal_at};
ghost use Rattle.dsr_graph_theory.specs.Sides as sides;
ghost use Rattle.dsr_graph_theory.specs.Sides.{KeepsBound, MayServe, SuppliesOne};
ghost use Rattle.dsr_meaning.specs.Typed.{AreTyped, IsTyped, IsTypedAtom, IsTypedMeasure};
ghost use Rattle.dsr_compensate.specs.Judged.{IsEffectOf};
ghost use Rattle.dsr_compensate.specs.Owned.{IsSound, owner_of};
ghost use Rattle.dsr_update_theory.specs.Changes.{Change as ChangeOf};
ghost use Rattle.dsr_update_theory.specs.Effects.{IsDeclared};
ghost use Rattle.dsr_update_theory.specs.Givers as givers;
ghost use Rattle.dsr_update_theory.specs.declared.effects.Direction.TheVariants.{Gain, Loss};

use crate::owner::Owner;
use dsr_effect::{may_change, tags_of};
use dsr_goal::{counted_symbol, only_giver};
use dsr_ir::{Atom, Bound, Goal, Inc, Measure, Rule, Span, Spec, Structures, Symbol, Update};
use dsr_update_theory::{Direction, Effect, Tags};

// The set or relation of which the literal speaks.
fn atom_symbol(atom: &Atom) -> Symbol
    ensures { result ≡ sides.atom_symbol atom.now }
{
    match atom {
        Atom::Member(_, set) => Symbol::Set(*set),
        Atom::Pair(_, _, rel) | Atom::Value(_, rel, _, _) => Symbol::Rel(*rel),
        Atom::Count(measure, _, _) => counted_symbol(measure),
    }
}

// Whether the symbol doesn't change so, of whatever record.
fn keeps(base: &Structures, effect: &Effect, direction: Direction, symbol: Symbol) -> bool
    requires typed { AreTyped base.now }
    requires declared { IsDeclared base.now symbol }
    ensures { (c : ChangeOf) → c.spec.base ≡ base.now → IsEffectOf c effect.now
        → Decides result (Keeps c direction symbol) }
{
    !may_change(base, effect, direction, symbol)
}

// Whether the rule gives each record one pair at most.
fn gives_once(rule: &Rule) -> bool
    ensures { result ≡ givers.gives_once rule.now }
{
    match rule.inc {
        Inc::OwnPair(_, _) => matches!(rule.span, Span::Single),
        Inc::SlotPair(_, _, _) => rule.premise.is_none(),
        Inc::Own(_) | Inc::Target(_, _) | Inc::Slot(_, _) => false,
    }
}

/// Whether one rule alone gives the relation's pairs, and gives each record one at most.
pub fn is_functional(spec: &Spec, rel: u32) -> bool
    requires typed { IsTyped spec.now }
    ensures { result ≡ givers.is_functional spec.now rel }
{
    match only_giver(spec, Symbol::Rel(rel)) {
        Some((_, rule)) => gives_once(rule),
        None => false,
    }
}

// Whether nothing but a fresh record is told of.
fn is_fresh_alone(tags: Tags) -> bool
    ensures { result ≡ not (tags.written || tags.entry || tags.any) }
{
    !(tags.written || tags.entry || tags.any)
}

impl Owner<'_> {
    // Whether the premise of the update's rule doesn't change so, where it is a set.
    fn keeps_premise(&self, update: &Update, effect: &Effect, direction: Direction) -> bool
        requires sound { IsSound self.now }
        ensures { (c : ChangeOf) → c.spec ≡ self.now.spec.now → c.update ≡ update.now
            → IsEffectOf c effect.now → Decides result (KeepsPremise c direction) }
    {
        match self.spec.rules.items().get(update.rule as usize) {
            Some(rule) => match rule.premise {
                Some(set) => keeps(&self.spec.base, effect, direction, Symbol::Set(set)),
                None => true,
            },
            None => true,
        }
    }

    // Whether the size with which the literal compares values stays.
    fn keeps_bound(&self, atom: &Atom, effect: &Effect) -> bool
        requires sound { IsSound self.now }
        requires atom { IsTypedAtom self.now.spec.now self.now.constraint.now.quant atom.now }
        ensures { (c : ChangeOf) → c.spec ≡ self.now.spec.now → IsEffectOf c effect.now
            → Decides result (KeepsBound c atom.now) }
    {
        match atom {
            Atom::Value(_, _, _, Bound::Size(measure)) => {
                let symbol = counted_symbol(measure);
                keeps(&self.spec.base, effect, Direction::Gain, symbol)
                    && keeps(&self.spec.base, effect, Direction::Loss, symbol)
            }
            _ => true,
        }
    }

    // Whether no more than one is supplied of what is counted.
    fn supplies_one_of(&self, measure: &Measure, effect: &Effect) -> bool
        requires sound { IsSound self.now }
        requires measure { IsTypedMeasure self.now.spec.now.base self.now.constraint.now.quant measure.now }
        ensures { (c : ChangeOf) (op : OpOf) (k : ℕ) → c.spec ≡ self.now.spec.now → IsEffectOf c effect.now
            → Decides result (SuppliesOne c (Count measure.now op k)) }
    {
        match *measure {
            Measure::Whole(set) => {
                is_fresh_alone(tags_of(&self.spec.base, effect, Direction::Gain, Symbol::Set(set)))
            }
            Measure::Out(_, rel) => is_functional(self.spec, rel),
            Measure::Into(_, _) => false,
        }
    }

    // Whether no more than one is supplied.
    fn supplies_one(&self, atom: &Atom, effect: &Effect) -> bool
        requires sound { IsSound self.now }
        requires atom { IsTypedAtom self.now.spec.now self.now.constraint.now.quant atom.now }
        ensures { (c : ChangeOf) → c.spec ≡ self.now.spec.now → IsEffectOf c effect.now
            → Decides result (SuppliesOne c atom.now) }
    {
        match atom {
            Atom::Count(measure, _, _) => self.supplies_one_of(measure, effect),
            Atom::Member(_, _) | Atom::Pair(_, _, _) | Atom::Value(_, _, _, _) => false,
        }
    }

    // Whether an update that sets a value changes nothing that would undo it.
    fn may_set(&self, atom: &Atom, update: &Update, effect: &Effect) -> bool
        requires sound { IsSound self.now }
        requires atom { IsTypedAtom self.now.spec.now self.now.constraint.now.quant atom.now }
        ensures { (c : ChangeOf) → c.spec ≡ self.now.spec.now → c.update ≡ update.now
            → IsEffectOf c effect.now → Decides result (KeepsPremise c Gain × KeepsBound c atom.now) }
    {
        self.keeps_premise(update, effect, Direction::Gain) && self.keeps_bound(atom, effect)
    }

    // Whether an update that supplies exactly one changes nothing that would undo it.
    fn may_supply_one(&self, atom: &Atom, update: &Update, effect: &Effect) -> bool
        requires sound { IsSound self.now }
        requires atom { IsTypedAtom self.now.spec.now self.now.constraint.now.quant atom.now }
        ensures { (c : ChangeOf) → c.spec ≡ self.now.spec.now → c.update ≡ update.now
            → IsEffectOf c effect.now → Decides result (KeepsPremise c Loss × SuppliesOne c atom.now) }
    {
        self.keeps_premise(update, effect, Direction::Loss) && self.supplies_one(atom, effect)
    }

    /// Whether an update, by its place in a template for the goal of the literal, changes nothing
    /// that would undo what the template is for; the effect is the update's.
    pub fn may_serve(
        &self,
        goal: Goal,
        atom: &Atom,
        place: usize,
        update: &Update,
        effect: &Effect,
    ) -> bool
        requires sound { IsSound self.now }
        requires atom { IsTypedAtom self.now.spec.now self.now.constraint.now.quant atom.now }
        requires effect { IsEffectOf
            (change_of (owner_of self.now) (goal_at goal place) update.now) effect.now }
        ensures { Decides result (MayServe goal atom.now place
            (change_of (owner_of self.now) (goal_at goal place) update.now)) }
    {
        let base = &self.spec.base;
        match goal {
            Goal::AddSet | Goal::AddTuple | Goal::Supply => {
                self.keeps_premise(update, effect, Direction::Loss)
            }
            Goal::RemoveSet | Goal::RemoveTuple | Goal::Trim => {
                keeps(base, effect, Direction::Gain, atom_symbol(atom))
            }
            Goal::SetValue => self.may_set(atom, update, effect),
            Goal::ExactlyOne if place == 0 => self.may_supply_one(atom, update, effect),
            Goal::ExactlyOne => keeps(base, effect, Direction::Gain, atom_symbol(atom)),
        }
    }
}
