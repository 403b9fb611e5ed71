// What the updates of a constraint are judged by.
ghost use Rattle.std.specs.Prelude.{◌≡◌, ◌<◌, ◌↔◌, ℕ, [], IfOk, IsTrue, Some, false, length, slice_get, slice_index_or, unwrap_or};
ghost use Rattle.dsr_effect.specs.Contexts.{IsApartFrom, IsContextOf, IsSound, change_for, change_in};
ghost use Rattle.dsr_effect.specs.Told.{ChangesAtW, IsTold, change_of};
ghost use Rattle.dsr_ir.specs.declared.rules.Rule.{Rule as RuleOf};
ghost use Rattle.dsr_update_theory.specs.declared.effects.Direction.TheVariants.{Gain};
ghost use Rattle.dsr_goal.specs.Knowing.{known_by};
ghost use Rattle.dsr_effect.specs.Table.{symbol_count};
ghost use Rattle.dsr_ir.specs.declared.updates.Goal.{Goal as GoalOf};
ghost use Rattle.dsr_ir.specs.declared.updates.Update.{Update as UpdateOf};
ghost use Rattle.dsr_update_theory.specs.Touching.{IsKeptApartBy};
ghost use Rattle.dsr_ir.specs.declared.updates.Symbol.{Symbol as SymbolOf};
ghost use Rattle.dsr_meaning.specs.Counting.{IsIn};
ghost use Rattle.dsr_update_theory.specs.Avoided.{IsAvoided};
ghost use Rattle.dsr_update_theory.specs.Effects.{InTable, IsDeclared, changes};
ghost use Rattle.dsr_update_theory.specs.declared.effects.Tag.{Tag as TagOf};
ghost use Rattle.dsr_update_theory.specs.declared.effects.Direction.{Direction as DirectionOf};
ghost use Rattle.dsr_meaning.specs.Typed.{IsTyped, IsTypedQuant};

use crate::avoided::avoided_sets;
use crate::changes::Change;
use crate::fields::{foreign_structures, place_pool};
use crate::rows::effect_of;
use dsr_facts::{Facts, MOST_SETS};
use dsr_goal::Known;
use dsr_ir::{Goal, NoMemory, Place, Pool, Quant, Spec, Update, Var};
use dsr_schema::pool_at;
use dsr_update_theory::Effect;
use std::alloc::Global;

// The most rules of a specification.
const MOST_RULES: usize = 128;

/// A specification with the quantifier of a constraint and the facts that the constraint uses.
#[derive(Drop)]
pub struct Context<'a> {
    spec: &'a Spec,
    quant: &'a Quant,
    exclusive: &'a [(u32, u32)],
    // For each set whether it has no member in common with one of which the first variable is
    // known to be a member, and the second one.
    first: [bool; MOST_SETS],
    second: [bool; MOST_SETS],
}

// For each set whether it has no member in common with one of which the variable is known to be.
fn apart_sets(exclusive: &[(u32, u32)], known: &Known, var: Var) -> [bool; MOST_SETS]
    ensures { (set : ℕ) → set < 64 → IsTrue (slice_index_or result set false)
        ↔ ((other : ℕ) × IsTrue (known_by known.now var other) × IsIn (set, other) exclusive.now) }
{
    let mut marks = [false; MOST_SETS];
    for pair in exclusive {
        if (pair.0 as usize) < MOST_SETS && known.has(var, pair.1) {
            marks[pair.0 as usize] = true;
        }
    }
    marks
}

impl<'a> Context<'a> {
    /// The context of the constraint's updates.
    pub fn new(spec: &'a Spec, facts: &'a Facts, quant: &'a Quant) -> Context<'a>
        requires typed { IsTyped spec.now }
        requires quantifier { IsTypedQuant spec.now.base quant.now }
        ensures of { IsContextOf spec.now facts.now.exclusive quant.now result }
        ensures sound { IsSound result }
    {
        let known = Known::new(spec, quant);
        let exclusive = facts.exclusive.items();
        Context {
            spec,
            quant,
            exclusive,
            first: apart_sets(exclusive, &known, Var::First),
            second: apart_sets(exclusive, &known, Var::Second),
        }
    }

    // For each set whether it has no member in common with a known one of the variable.
    fn apart_of(&self, var: Var) -> [bool; MOST_SETS]
        requires sound { IsSound self.now }
        ensures { (set : ℕ) → set < length self.now.spec.now.base.sets
            → IsTrue (slice_index_or result set false)
            ↔ IsApartFrom self.now.spec.now self.now.quant.now self.now.exclusive.now var set }
    {
        match var {
            Var::Head => [false; MOST_SETS],
            Var::First => self.first,
            Var::Second => self.second,
        }
    }

    // For each set whether the record at the place is known to be no member.
    fn apart_at(&self, place: Place) -> [bool; MOST_SETS]
        requires sound { IsSound self.now }
        ensures { (set : ℕ) (update : UpdateOf) (goal : GoalOf)
            → set < length self.now.spec.now.base.sets → IsTrue (slice_index_or result set false)
            ↔ IsKeptApartBy (change_in self.now goal update) place (Some set) }
    {
        match place {
            Place::Of(var) => self.apart_of(var),
            Place::Head | Place::Deriver => [false; MOST_SETS],
        }
    }

    // The update, with what is found for it once.
    fn change(&'a self, goal: Goal, update: &'a Update) -> Change<'a>
        requires sound { IsSound self.now }
        ensures same { change_of result ≡ change_in self.now goal update.now }
        ensures told { IsTold result }
    {
        let fresh = match update.fresh {
            Some(pool) => pool_at(&self.spec.base, pool),
            None => None,
        };
        let avoided = match fresh {
            Some(pool) => avoided_by(self.spec, pool),
            None => [false; MOST_SETS],
        };
        Change {
            spec: self.spec,
            quant: self.quant,
            exclusive: self.exclusive,
            goal,
            update,
            foreign: foreign_structures(&self.spec.base, update.writes.items()),
            pool: place_pool(self.spec, self.quant, update.rule, update.place),
            apart: self.apart_at(update.place),
            fresh,
            avoided,
        }
    }

    /// For each rule whether the update may make it give something new at the written record.
    pub fn gaining_rules(&self, goal: Goal, update: &Update) -> [bool; MOST_RULES]
        requires sound { IsSound self.now }
        ensures { (number : ℕ) (rule : RuleOf)
            → slice_get self.now.spec.now.rules number ≡ Some rule
            → IsTrue (slice_index_or result number false)
            ↔ ChangesAtW (change_in self.now goal update.now) rule Gain }
    {
        let change = self.change(goal, update);
        let rules = self.spec.rules.items();
        let mut gaining = [false; MOST_RULES];
        for number in 0..rules.len() {
            gaining[number] = change.gains_at_w(&rules[number]);
        }
        gaining
    }

    /// What the update may change, for this goal. In a template for exactly one, the goal of the
    /// first update is to supply, and that of the others to trim.
    pub fn effect(&self, alloc: Global, goal: Goal, update: &Update) -> Result<Effect, NoMemory>
        requires sound { IsSound self.now }
        ensures gains { IfOk result (λ e. length e.gains ≡ symbol_count self.now.spec.now.base) }
        ensures losses { IfOk result (λ e. length e.losses ≡ symbol_count self.now.spec.now.base) }
        ensures exactly { IfOk result (λ e. (direction : DirectionOf) (symbol : SymbolOf) (tag : TagOf)
            → IsDeclared self.now.spec.now.base symbol
            → IsTrue (changes self.now.spec.now.base e direction symbol tag)
            ↔ InTable (change_in self.now goal update.now) direction symbol tag) }
    {
        effect_of(alloc, &self.change(goal, update))
    }
}

/// What an update may change: for each set and relation of which records it may gain and lose
/// facts, whatever the image. The update is one for a literal of a constraint with this quantifier,
/// which uses these facts; for more than one update of a constraint there is `Context`.
pub fn effect(
    alloc: Global,
    spec: &Spec,
    facts: &Facts,
    quant: &Quant,
    goal: Goal,
    update: &Update,
) -> Result<Effect, NoMemory>
    requires typed { IsTyped spec.now }
    requires quantifier { IsTypedQuant spec.now.base quant.now }
    ensures gains { IfOk result (λ e. length e.gains ≡ symbol_count spec.now.base) }
    ensures losses { IfOk result (λ e. length e.losses ≡ symbol_count spec.now.base) }
    ensures exactly { IfOk result (λ e. (direction : DirectionOf) (symbol : SymbolOf) (tag : TagOf)
        → IsDeclared spec.now.base symbol → IsTrue (changes spec.now.base e direction symbol tag)
        ↔ InTable (change_for spec.now facts.now.exclusive quant.now goal update.now)
        direction symbol tag) }
{
    Context::new(spec, facts, quant).effect(alloc, goal, update)
}

// For each set whether no fresh record of the pool is a member.
fn avoided_by(spec: &Spec, pool: &Pool) -> [bool; MOST_SETS]
    requires typed { IsTyped spec.now }
    ensures { (set : ℕ) → set < length spec.now.base.sets
        → IsTrue (slice_index_or result set false)
        ↔ IsAvoided spec.now (unwrap_or pool.now.avoid []) set }
{
    match &pool.avoid {
        Some(avoid) => avoided_sets(spec, avoid.items()),
        None => avoided_sets(spec, &[]),
    }
}
