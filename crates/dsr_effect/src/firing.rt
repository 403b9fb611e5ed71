// Whether instances of a rule at the written and at the fresh record fire after an update.
ghost use Rattle.std.specs.Prelude.{◌≡◌, Decides, Some, option_and_then, option_map, slice_get};
ghost use Rattle.dsr_effect.specs.Told.{AsksAllButTarget, IsReading, IsTold, change_of};
ghost use Rattle.dsr_update_theory.specs.Touching as said;
ghost use Rattle.dsr_update_theory.specs.Values.{NoneReference, reset_of};
ghost use Rattle.dsr_update_theory.specs.Touching.{IsBlockedAtF, IsQuiet, IsSureAtF, StaysAtF, StaysAtW};

use crate::changes::Change;
use crate::readings::Reading;
use crate::values::reset_comes_out;
use dsr_facts::has_guards;
use dsr_ir::{FieldRef, Goal, Guard, Kind, Path, Rule, Span};
use dsr_schema::{declared_field, descends};

impl<'a> Change<'a> {
    // The kind of a field that is reset in the fresh record.
    fn reset_kind(&self, field: FieldRef) -> Option<Kind>
        requires told { IsTold self.now }
        ensures { option_and_then reset_of result ≡ said.reset_value (change_of self.now) field }
    {
        let pool = self.fresh?;
        if !descends(&self.spec.base, pool.structure, field.structure) {
            return None;
        }
        Some(declared_field(&self.spec.base, field)?.kind)
    }

    fn is_sure_at_f(&self, wanted: bool, guard: &Guard) -> bool
        requires told { IsTold self.now }
        ensures { Decides result (IsSureAtF (change_of self.now) wanted guard.now) }
    {
        match self.reset_kind(guard.path.field) {
            Some(kind) => reset_comes_out(kind, guard.test, wanted),
            None => false,
        }
    }

    fn is_none_at_f(&self, path: Path) -> bool
        requires told { IsTold self.now }
        ensures { Decides result
            (said.reset_value (change_of self.now) path.field ≡ Some NoneReference) }
    {
        matches!(self.reset_kind(path.field), Some(Kind::Refers { pool: _ }))
    }

    // Whether a guard surely fails at the fresh record, or the target is none there.
    pub fn is_blocked_at_f(&self, rule: &Rule) -> bool
        requires told { IsTold self.now }
        ensures { Decides result (IsBlockedAtF (change_of self.now) rule.now) }
    {
        if self.fresh.is_none() {
            return false;
        }
        for guard in rule.guards.items() {
            if self.is_sure_at_f(false, guard) {
                return true;
            }
        }
        match rule.inc.target() {
            Some(path) => self.is_none_at_f(path),
            None => false,
        }
    }

    // The rule of the update.
    fn own_rule(&self) -> Option<&Rule>
        ensures { option_map (λ r. r.now) result
            ≡ slice_get self.now.spec.now.rules self.now.update.now.rule }
    {
        self.spec.rules.items().get(self.update.rule as usize)
    }

    // Whether the update is to make an instance fire that didn't, and so neither did one of this
    // rule.
    fn is_quiet(&self, rule: &Rule) -> bool
        requires told { IsTold self.now }
        ensures { Decides result (IsQuiet (change_of self.now) rule.now) }
    {
        let Some(own) = self.own_rule() else {
            return false;
        };
        match self.goal {
            Goal::AddSet => asks_all_of(rule, own),
            Goal::Supply => asks_all_of(rule, own) && rule.inc.target() == own.inc.target(),
            _ => false,
        }
    }

    /// Whether no instance of the rule at the written record gives something before that it
    /// doesn't give afterwards.
    pub fn stays_at_w(&self, rule: &Rule, reading: Reading) -> bool
        requires told { IsTold self.now }
        requires reading { IsReading (change_of self.now) rule.now reading }
        ensures { Decides result (StaysAtW (change_of self.now) rule.now) }
    {
        reading.unmoved || self.is_quiet(rule)
    }

    /// Whether no instance of the rule at the fresh record gives something before that it doesn't
    /// give afterwards.
    pub fn stays_at_f(&self, rule: &Rule) -> bool
        requires told { IsTold self.now }
        ensures { Decides result (StaysAtF (change_of self.now) rule.now) }
    {
        for guard in rule.guards.items() {
            if !self.is_sure_at_f(true, guard) {
                return false;
            }
        }
        rule.inc.target().is_none()
    }
}

// Whether the rule asks all that the other one asks, of the same records.
fn asks_all_of(rule: &Rule, other: &Rule) -> bool
    ensures { Decides result (AsksAllButTarget rule.now other.now) }
{
    rule.premise == other.premise && matches!(rule.span, Span::Single) && has_guards(rule, other)
}
