// What instances of a rule at the written and at the fresh record may gain or lose.
ghost use Rattle.std.specs.Prelude.{◌≡◌, ◌↔◌, ◌||◌, Decides, IsTrue};
ghost use Rattle.dsr_effect.specs.Told.{ChangesAtF, ChangesAtW, IsReading, IsTold, IsTouchOf, MayChangeAtF, MayChangeAtW, change_of};
ghost use Rattle.dsr_meaning.specs.Counting.{IsIn};
ghost use Rattle.dsr_update_theory.specs.Effects as said;
ghost use Rattle.dsr_update_theory.specs.Effects.{MayChange, has_tag};
ghost use Rattle.dsr_update_theory.specs.Touching.{IsKeptApartBy, IsTouchedAtF, IsTouchedAtW};
ghost use Rattle.dsr_update_theory.specs.declared.effects.Tag.{Tag as TagOf};
ghost use Rattle.dsr_update_theory.specs.declared.effects.Direction.TheVariants.{Gain};

use crate::avoided::is_marked;
use crate::changes::Change;
use crate::readings::Reading;
use crate::tags::{NO_TAGS, joined, only};
use dsr_goal::is_own;
use dsr_ir::{FieldRef, Inc, Pick, Place, Rule};
use dsr_layout::premise_pool;
use dsr_update_theory::{Direction, Tag, Tags};

/// What an update does to a rule, for gains, losses and what is handed on alike.
#[derive(Clone, Copy)]
pub struct Touch {
    /// Whether instances at the written and at the fresh record are touched.
    at_w: bool,
    at_f: bool,
    /// What becomes of what the rule reads in the written record.
    pub reading: Reading,
}

impl Touch {
    /// Whether some instances are touched.
    pub fn is_some(self) -> bool
        ensures { result ≡ self.at_w || self.at_f }
    {
        self.at_w || self.at_f
    }
}

// Of which record a fact of an instance at the fresh record is.
fn tag_at_f(inc: &Inc) -> Tag
    ensures { result ≡ said.tag_at_f inc.now }
{
    if is_own(inc) { Tag::Fresh } else { Tag::Any }
}

impl<'a> Change<'a> {
    // Whether the record that is written is known to be no member of the premise.
    fn is_kept_apart(&self, rule: &Rule) -> bool
        requires told { IsTold self.now }
        requires among { IsIn rule.now self.now.spec.now.rules }
        ensures { Decides result (IsKeptApartBy (change_of self.now) self.now.update.now.place
            rule.now.premise) }
    {
        match (self.update.place, rule.premise) {
            (Place::Of(_), Some(set)) => is_marked(&self.apart, set),
            _ => false,
        }
    }

    fn is_touched_at_w(&self, rule: &Rule, reading: Reading) -> bool
        requires told { IsTold self.now }
        requires among { IsIn rule.now self.now.spec.now.rules }
        requires reading { IsReading (change_of self.now) rule.now reading }
        ensures { Decides result (IsTouchedAtW (change_of self.now) rule.now) }
    {
        self.pool == Some(premise_pool(self.spec, rule))
            && reading.touched
            && !self.is_kept_apart(rule)
    }

    fn is_touched_at_f(&self, rule: &Rule) -> bool
        requires told { IsTold self.now }
        requires among { IsIn rule.now self.now.spec.now.rules }
        ensures { Decides result (IsTouchedAtF (change_of self.now) rule.now) }
    {
        self.update.fresh == Some(premise_pool(self.spec, rule))
            && match rule.premise {
                Some(set) => !is_marked(&self.avoided, set),
                None => false,
            }
    }

    // Whether the field gets the code of the fresh record.
    fn gets_fresh(&self, field: FieldRef) -> bool
        ensures { result ≡ said.gets_fresh (change_of self.now) field }
    {
        match self.write_to(field) {
            Some(write) => matches!(write.pick, Pick::Fresh),
            None => false,
        }
    }

    // Of which record a fact of an instance at the written record is.
    fn tag_at_w(&self, rule: &Rule, direction: Direction) -> Tag
        requires told { IsTold self.now }
        ensures { result ≡ said.tag_at_w (change_of self.now) rule.now direction rule.now.inc }
    {
        match rule.inc {
            Inc::Own(_) | Inc::OwnPair(_, _) => Tag::Written,
            Inc::Slot(_, _) | Inc::SlotPair(_, _, _) => {
                if self.is_at_entry(rule) {
                    Tag::Entry
                } else {
                    Tag::Any
                }
            }
            Inc::Target(_, path) => {
                if direction == Direction::Gain && self.gets_fresh(path.field) {
                    Tag::Fresh
                } else {
                    Tag::Any
                }
            }
        }
    }

    /// What the update does to the rule.
    pub fn touch(&self, rule: &Rule) -> Touch
        requires told { IsTold self.now }
        requires among { IsIn rule.now self.now.spec.now.rules }
        ensures { IsTouchOf (change_of self.now) rule.now result }
    {
        let reading = self.reading(rule);
        Touch {
            at_w: self.is_touched_at_w(rule, reading),
            at_f: self.is_touched_at_f(rule),
            reading,
        }
    }

    fn changes_at_w(&self, rule: &Rule, touch: Touch, direction: Direction) -> bool
        requires told { IsTold self.now }
        requires touch { IsTouchOf (change_of self.now) rule.now touch }
        ensures { Decides result (ChangesAtW (change_of self.now) rule.now direction) }
    {
        match direction {
            Direction::Gain => touch.at_w && !touch.reading.blocked,
            Direction::Loss => touch.at_w && !self.stays_at_w(rule, touch.reading),
        }
    }

    fn changes_at_f(&self, rule: &Rule, touched: bool, direction: Direction) -> bool
        requires told { IsTold self.now }
        requires touched { Decides touched (IsTouchedAtF (change_of self.now) rule.now) }
        ensures { Decides result (ChangesAtF (change_of self.now) rule.now direction) }
    {
        match direction {
            Direction::Gain => touched && !self.is_blocked_at_f(rule),
            Direction::Loss => touched && !self.stays_at_f(rule),
        }
    }

    // What the rule may gain or lose at the written record.
    fn tags_at_w(&self, rule: &Rule, touch: Touch, direction: Direction) -> Tags
        requires told { IsTold self.now }
        requires touch { IsTouchOf (change_of self.now) rule.now touch }
        ensures { (tag : TagOf) → IsTrue (has_tag tag result)
            ↔ MayChangeAtW (change_of self.now) rule.now direction tag }
    {
        if self.changes_at_w(rule, touch, direction) {
            only(self.tag_at_w(rule, direction))
        } else {
            NO_TAGS
        }
    }

    // What the rule may gain or lose at the fresh record.
    fn tags_at_f(&self, rule: &Rule, touched: bool, direction: Direction) -> Tags
        requires told { IsTold self.now }
        requires touched { Decides touched (IsTouchedAtF (change_of self.now) rule.now) }
        ensures { (tag : TagOf) → IsTrue (has_tag tag result)
            ↔ MayChangeAtF (change_of self.now) rule.now direction tag }
    {
        if self.changes_at_f(rule, touched, direction) {
            only(tag_at_f(&rule.inc))
        } else {
            NO_TAGS
        }
    }

    /// Whether the rule may give something new at the written record.
    pub fn gains_at_w(&self, rule: &Rule) -> bool
        requires told { IsTold self.now }
        requires among { IsIn rule.now self.now.spec.now.rules }
        ensures { Decides result (ChangesAtW (change_of self.now) rule.now Gain) }
    {
        self.changes_at_w(rule, self.touch(rule), Direction::Gain)
    }

    /// What instances of the rule at the written and at the fresh record may gain or lose.
    pub fn may_change(&self, rule: &Rule, touch: Touch, direction: Direction) -> Tags
        requires told { IsTold self.now }
        requires touch { IsTouchOf (change_of self.now) rule.now touch }
        ensures { (tag : TagOf) → IsTrue (has_tag tag result)
            ↔ MayChange (change_of self.now) rule.now direction tag }
    {
        joined(
            self.tags_at_w(rule, touch, direction),
            self.tags_at_f(rule, touch.at_f, direction),
        )
    }
}
