// What becomes of what rules read in the written record.
ghost use Rattle.std.specs.Prelude.{◌≡◌, Decides, false, true};
ghost use Rattle.dsr_effect.specs.Told as told;
ghost use Rattle.dsr_effect.specs.Told.{AreRead, IsGuardReading, IsLeft, IsReading, IsTargetReading, IsTold, change_of};
ghost use Rattle.dsr_update_theory.specs.Touching as said;
ghost use Rattle.dsr_update_theory.specs.Touching.{IsSure, LeavesNone};

use crate::changes::Change;
use crate::values::Values;
use dsr_ir::{FieldRef, Goal, Guard, Path, Rule, Test, Write};
use dsr_schema::declared_field;

/// What becomes of what a rule reads in the record that is written, or of a part of that.
#[derive(Clone, Copy)]
pub struct Reading {
    /// Some value may be another one afterwards.
    pub touched: bool,
    /// Some guard surely fails, or the target is left none.
    pub blocked: bool,
    /// Some guard surely fails, or the target is left none, where the record is a new one of the
    /// rule's.
    pub blocked_joining: bool,
    /// Each value that may be another one is that of a guard which surely holds.
    pub unmoved: bool,
}

// Where all values stay.
const STILL: Reading = Reading {
    touched: false,
    blocked: false,
    blocked_joining: false,
    unmoved: true,
};

// Where a value may be any other one.
const OPEN: Reading = Reading {
    touched: true,
    blocked: false,
    blocked_joining: false,
    unmoved: false,
};

// The reading of both parts.
fn both(a: Reading, b: Reading) -> Reading
    ensures { result ≡ told.both a b }
{
    Reading {
        touched: a.touched || b.touched,
        blocked: a.blocked || b.blocked,
        blocked_joining: a.blocked_joining || b.blocked_joining,
        unmoved: a.unmoved && b.unmoved,
    }
}

// Whether a template for the goal takes something away.
fn is_removal(goal: Goal) -> bool
    ensures { result ≡ said.is_removal goal }
{
    matches!(goal, Goal::RemoveSet | Goal::RemoveTuple | Goal::Trim)
}

impl<'a> Change<'a> {
    // What the write leaves; none where its field isn't declared.
    fn left(&self, write: &Write) -> Option<Values>
        requires told { IsTold self.now }
        ensures { IsLeft (change_of self.now) write.now result }
    {
        let field = declared_field(&self.spec.base, write.path.field)?;
        Some(Values::left(field, is_removal(self.goal), write))
    }

    // Whether the write leaves none and nothing else.
    fn leaves_none(&self, write: &Write) -> bool
        requires told { IsTold self.now }
        ensures { Decides result (LeavesNone (change_of self.now) write.now) }
    {
        match self.left(write) {
            Some(values) => values.is_none_alone(),
            None => false,
        }
    }

    // Whether the test surely fails, and whether it surely holds, whatever the write leaves.
    fn outcomes(&self, write: &Write, test: Test) -> (bool, bool)
        requires told { IsTold self.now }
        ensures fails { Decides result.0 (IsSure (change_of self.now) write.now false test) }
        ensures holds { Decides result.1 (IsSure (change_of self.now) write.now true test) }
    {
        match self.left(write) {
            Some(values) => (
                values.all_come_out(test, false),
                values.all_come_out(test, true),
            ),
            None => (true, true),
        }
    }

    // What becomes of a written field that the rule reads by the path, where it surely fails or
    // holds so.
    fn written(&self, rule: &Rule, path: Path, fails: bool, holds: bool) -> Reading
        requires told { IsTold self.now }
        ensures { result ≡ told.written (change_of self.now) rule.now path fails holds }
    {
        let is_known = !path.indexed || self.is_at_entry(rule);
        Reading {
            touched: true,
            blocked: fails && is_known,
            blocked_joining: fails && !path.indexed,
            unmoved: holds && is_known,
        }
    }

    // What becomes of a field that isn't written; none where its value stays.
    fn unwritten(&self, field: FieldRef) -> Option<Reading>
        requires told { IsTold self.now }
        ensures { result ≡ told.unwritten (change_of self.now) field }
    {
        if self.is_foreign(field) {
            Some(OPEN)
        } else {
            None
        }
    }

    // What becomes of what the guard reads; none where its value stays.
    fn guard_reading(&self, rule: &Rule, guard: &Guard) -> Option<Reading>
        requires told { IsTold self.now }
        ensures { IsGuardReading (change_of self.now) rule.now guard.now result }
    {
        let Some(write) = self.write_to(guard.path.field) else {
            return self.unwritten(guard.path.field);
        };
        let (fails, holds) = self.outcomes(write, guard.test);
        Some(self.written(rule, guard.path, fails, holds))
    }

    // What becomes of the target; none where it stays.
    fn target_reading(&self, rule: &Rule, path: Path) -> Option<Reading>
        requires told { IsTold self.now }
        ensures { IsTargetReading (change_of self.now) rule.now path result }
    {
        let Some(write) = self.write_to(path.field) else {
            return self.unwritten(path.field);
        };
        Some(self.written(rule, path, self.leaves_none(write), false))
    }

    // What becomes of what the rule's guards read.
    fn guards_reading(&self, rule: &Rule) -> Reading
        requires told { IsTold self.now }
        ensures { AreRead (change_of self.now) rule.now rule.now.guards result }
    {
        let mut reading = STILL;
        for guard in rule.guards.items() {
            if let Some(one) = self.guard_reading(rule, guard) {
                reading = both(reading, one);
            }
        }
        reading
    }

    /// What becomes of what the rule reads.
    pub fn reading(&self, rule: &Rule) -> Reading
        requires told { IsTold self.now }
        ensures { IsReading (change_of self.now) rule.now result }
    {
        let guards = self.guards_reading(rule);
        let Some(path) = rule.inc.target() else {
            return guards;
        };
        match self.target_reading(rule, path) {
            Some(target) => both(guards, target),
            None => guards,
        }
    }
}
