// When what an update does can't break another constraint.
ghost use Rattle.std.specs.Prelude.{◌≡◌, Decides};
ghost use Rattle.dsr_graph_theory.specs.Breaks.{MayBreakBy};
ghost use Rattle.dsr_graph_theory.specs.Causes.{symbol_of};
ghost use Rattle.dsr_graph_theory.specs.Excuses.{AreSecondsApart, IsExcused, IsExcusedAt, IsExcusedAtEntry, IsExcusedAtPlace, IsExcusedAtRecord, IsExcusedAtSlot, IsSameBinding, HappensOnlyAt};
ghost use Rattle.dsr_graph_theory.specs.declared.causes.Reason.{Reason as ReasonOf};
ghost use Rattle.dsr_graph.specs.Told.{AreFactsOf, AreTagsOf, IsOfDeclared, TellsExcuses};
ghost use Rattle.dsr_graph_theory.specs.Owners.{Owner as OwnerOf};
ghost use Rattle.dsr_meaning.specs.Typed.{AreTyped};
ghost use Rattle.dsr_compensate.specs.Judged.{IsEffectOf};
ghost use Rattle.dsr_compensate.specs.Owned.{IsSound, owner_of};
ghost use Rattle.dsr_update_theory.specs.declared.effects.Tag.TheVariants.{Written};
ghost use Rattle.dsr_update_theory.specs.Changes.{Change as ChangeOf};

use crate::happening::{is_only_entry, is_only_written, is_some, tags_for};
use crate::variables::{BoundOnce, Different, are_targets_apart};
use dsr_compensate::Owner;
use dsr_facts::Facts;
use dsr_graph_theory::Cause;
use dsr_ir::{At, Place, Structures, Update, Var};
use dsr_update_theory::{Effect, Tags};

/// A constraint and another one, or itself, with what is known of their variables.
#[derive(Clone, Copy)]
pub struct Excuses {
    is_same: bool,
    once: BoundOnce,
    different: Different,
    targets_apart: bool,
    // Whether different records excuse what happens at the slot of an entry.
    entries: bool,
}

impl Excuses {
    /// What is known of the constraint whose updates are made, which uses these facts, and of the
    /// other one, which the updates may break.
    pub fn new(facts: &Facts, owner: &Owner, other: &Owner) -> Excuses
        requires sound { IsSound owner.now }
        requires other_sound { IsSound other.now }
        requires same { (owner_of other.now).spec ≡ (owner_of owner.now).spec }
        requires facts { AreFactsOf (owner_of owner.now) facts.now }
        ensures { TellsExcuses (owner_of owner.now) (owner_of other.now) result }
    {
        Excuses {
            is_same: owner.number() == other.number(),
            once: BoundOnce::new(facts, owner),
            different: Different::new(facts, owner, other),
            targets_apart: are_targets_apart(facts, owner, other),
            entries: owner.spec().base.version == 2,
        }
    }

    /// Whether the constraint and the other one are the same.
    pub fn is_same(&self) -> bool
        ensures { (owner other : OwnerOf) → TellsExcuses owner other self.now
            → Decides result (owner.number ≡ other.number) }
    {
        self.is_same
    }

    // Whether what happens at a variable's record is read in the binding alone for which the update
    // is made.
    fn excuses_binding(&self, var: Var, at: Var) -> bool
        ensures { (owner other : OwnerOf) → TellsExcuses owner other self.now
            → Decides result (IsSameBinding owner other var at) }
    {
        if var != at {
            return false;
        }
        if !self.is_same {
            return false;
        }
        self.once.of(var)
    }

    fn excuses_targets(&self, var: Var, at: Var) -> bool
        ensures { (owner other : OwnerOf) → TellsExcuses owner other self.now
            → Decides result (AreSecondsApart owner other var at) }
    {
        if var != Var::Second {
            return false;
        }
        if at != Var::Second {
            return false;
        }
        self.targets_apart
    }

    // Whether what happens at the record of a variable doesn't bear on the other constraint.
    fn excuses_record(&self, var: Var, at: Var) -> bool
        ensures { (owner other : OwnerOf) → TellsExcuses owner other self.now
            → Decides result (IsExcusedAtRecord owner other var at) }
    {
        if self.excuses_binding(var, at) {
            return true;
        }
        if self.different.of(var, at) {
            return true;
        }
        self.excuses_targets(var, at)
    }

    fn excuses_place(&self, place: Place, at: Var) -> bool
        ensures { (owner other : OwnerOf) → TellsExcuses owner other self.now
            → Decides result (IsExcusedAtPlace owner other place at) }
    {
        match place {
            Place::Head => self.excuses_binding(Var::Head, at),
            Place::Of(var) => self.excuses_record(var, at),
            Place::Deriver => false,
        }
    }

    // Whether what happens at the slot of a variable's entry doesn't bear on it.
    fn excuses_slot(&self, var: Var, at: Var) -> bool
        ensures { (owner other : OwnerOf) → TellsExcuses owner other self.now
            → Decides result (IsExcusedAtSlot owner other var at) }
    {
        if self.excuses_binding(var, at) {
            return true;
        }
        if !self.entries {
            return false;
        }
        self.different.of(var, at)
    }

    fn excuses_entry(&self, entry: At, at: Var) -> bool
        ensures { (owner other : OwnerOf) → TellsExcuses owner other self.now
            → Decides result (IsExcusedAtEntry owner other entry at) }
    {
        match entry {
            At::SlotOf(var) => self.excuses_slot(var, at),
            At::Scalar | At::Deriver => false,
        }
    }

    // Whether it does so at the written record alone, where that doesn't bear on what is read at
    // the variable.
    fn excuses_written(&self, place: Place, tags: Tags, at: Var) -> bool
        ensures { (owner other : OwnerOf) (c : ChangeOf) (reason : ReasonOf)
            → TellsExcuses owner other self.now → AreTagsOf c reason tags
            → Decides result (HappensOnlyAt c reason Written × IsExcusedAtPlace owner other place at) }
    {
        if !is_only_written(tags) {
            return false;
        }
        self.excuses_place(place, at)
    }

    // Whether the update does so only where it doesn't bear on what is read at the variable.
    fn excuses_at(&self, update: &Update, tags: Tags, at: Var) -> bool
        ensures { (owner other : OwnerOf) (c : ChangeOf) (reason : ReasonOf)
            → TellsExcuses owner other self.now → c.update ≡ update.now → AreTagsOf c reason tags
            → Decides result (IsExcusedAt owner other c reason at) }
    {
        if self.excuses_written(update.place, tags, at) {
            return true;
        }
        if !is_only_entry(tags) {
            return false;
        }
        self.excuses_entry(update.at, at)
    }

    // Whether the update does it only where it doesn't bear on the other constraint.
    fn excuses(&self, update: &Update, tags: Tags, cause: &Cause) -> bool
        ensures { (owner other : OwnerOf) (c : ChangeOf) → TellsExcuses owner other self.now
            → c.update ≡ update.now → AreTagsOf c cause.now.reason tags
            → Decides result (IsExcused owner other c cause.now) }
    {
        match cause.at {
            Some(at) => self.excuses_at(update, tags, at),
            None => false,
        }
    }

    // Whether the update may break the other constraint where these are the records.
    fn may_break_at(&self, update: &Update, tags: Tags, cause: &Cause) -> bool
        ensures { (owner other : OwnerOf) (c : ChangeOf) → TellsExcuses owner other self.now
            → c.update ≡ update.now → AreTagsOf c cause.now.reason tags
            → Decides result (MayBreakBy owner other cause.now c) }
    {
        if !is_some(tags) {
            return false;
        }
        !self.excuses(update, tags, cause)
    }

    /// Whether the update, with this effect, may break the other constraint by this cause.
    pub fn may_break(
        &self,
        base: &Structures,
        update: &Update,
        effect: &Effect,
        cause: &Cause,
    ) -> bool
        requires typed { AreTyped base.now }
        requires declared { IsOfDeclared base.now cause.now }
        ensures { (owner other : OwnerOf) (c : ChangeOf) → TellsExcuses owner other self.now
            → c.update ≡ update.now → c.spec.base ≡ base.now → IsEffectOf c effect.now
            → Decides result (MayBreakBy owner other cause.now c) }
    {
        self.may_break_at(update, tags_for(base, effect, cause.reason), cause)
    }
}
