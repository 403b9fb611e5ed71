// The table of an effect, a row for each symbol's gains and one for its losses.
ghost use Rattle.std.specs.Prelude.{◌≡◌, ◌<◌, ◌+◌, ◌⊎◌, ◌↔◌, ◌++◌, ℕ, [], ◌∷◌, Decides, IfOk, IsTrue, Some, length};
ghost use Rattle.dsr_effect.specs.Rows.{has_row_tag};
ghost use Rattle.dsr_effect.specs.Table as table;
ghost use Rattle.dsr_effect.specs.Table.{AreRuleFlows, IsChangedBy, IsPassing, row_number};
ghost use Rattle.dsr_effect.specs.Told.{IsReading, IsTold, IsTouchOf, change_of};
ghost use Rattle.dsr_effect.specs.declared.flows.Flow.{Flow as FlowOf};
ghost use Rattle.dsr_ir.specs.Rules.{symbol_of};
ghost use Rattle.dsr_ir.specs.declared.updates.Symbol.{Symbol as SymbolOf};
ghost use Rattle.dsr_meaning.specs.Counting.{IsIn};
ghost use Rattle.dsr_meaning.specs.Lists.{each_at};
ghost use Rattle.dsr_meaning.specs.Typed.{AreTyped};
ghost use Rattle.dsr_update_theory.specs.Effects as said;
ghost use Rattle.dsr_update_theory.specs.Effects.{InTable, IsDeclared, MayChange, changes, has_tag};
ghost use Rattle.dsr_update_theory.specs.declared.effects.Tag.{Tag as TagOf};
ghost use Rattle.dsr_update_theory.specs.declared.effects.Direction.{Direction as DirectionOf};
ghost use Rattle.dsr_update_theory.specs.declared.effects.Direction.TheVariants.{Gain, Loss};

use crate::changes::Change;
use crate::flows::{Flow, settle};
use crate::readings::Reading;
use crate::tags::{NO_TAGS, is_some, joined};
use crate::touching::Touch;
use dsr_goal::is_own;
use dsr_ir::{NoMemory, Rule, Seq, SetDecl, Structures, Symbol};
use dsr_update_theory::{Direction, Effect, Tags};
use std::alloc::Global;

// How many symbols there are.
fn symbol_count(base: &Structures) -> usize
    requires typed { AreTyped base.now }
    ensures { result ≡ table.symbol_count base.now }
{
    base.sets.items().len() + base.rels.items().len()
}

// The place of a symbol among sets and relations.
fn symbol_number(base: &Structures, symbol: Symbol) -> usize
    requires typed { AreTyped base.now }
    ensures { result ≡ said.symbol_number base.now symbol }
{
    match symbol {
        Symbol::Set(set) => set as usize,
        Symbol::Rel(rel) => base.sets.items().len() + rel as usize,
    }
}

// The row of what a symbol gains, and behind all these that of what it loses.
fn row_of(base: &Structures, direction: Direction, symbol: Symbol) -> usize
    requires typed { AreTyped base.now }
    ensures { result ≡ row_number base.now direction symbol }
{
    match direction {
        Direction::Gain => symbol_number(base, symbol),
        Direction::Loss => symbol_count(base) + symbol_number(base, symbol),
    }
}

// Adds what the rule may gain, or lose, at the written and at the fresh record.
fn add_change(change: &Change, rows: &mut [Tags], rule: &Rule, touch: Touch, direction: Direction)
    requires told { IsTold change.now }
    requires touch { IsTouchOf (change_of change.now) rule.now touch }
    requires among { IsIn rule.now change.now.spec.now.rules }
    requires places { length rows.now ≡ table.row_count change.now.spec.now.base }
    ensures places { length rows.new ≡ length rows.old }
    ensures exactly { (row : ℕ) (tag : TagOf) → IsTrue (has_row_tag rows.new row tag)
        ↔ (IsTrue (has_row_tag rows.old row tag)
        ⊎ (row ≡ row_number change.now.spec.now.base direction (symbol_of rule.now.inc))
        × MayChange (change_of change.now) rule.now direction tag) }
{
    let row = row_of(&change.spec.base, direction, rule.inc.symbol());
    rows[row] = joined(rows[row], change.may_change(rule, touch, direction));
}

// Adds what the rule may gain and lose.
fn add_changes(change: &Change, rows: &mut [Tags], rule: &Rule, touch: Touch)
    requires told { IsTold change.now }
    requires touch { IsTouchOf (change_of change.now) rule.now touch }
    requires among { IsIn rule.now change.now.spec.now.rules }
    requires places { length rows.now ≡ table.row_count change.now.spec.now.base }
    ensures places { length rows.new ≡ length rows.old }
    ensures exactly { (row : ℕ) (tag : TagOf) → IsTrue (has_row_tag rows.new row tag)
        ↔ (IsTrue (has_row_tag rows.old row tag)
        ⊎ IsChangedBy (change_of change.now) (rule.now ∷ []) row tag) }
{
    if touch.is_some() {
        add_change(change, rows, rule, touch, Direction::Gain);
        add_change(change, rows, rule, touch, Direction::Loss);
    }
}

// What the rule's premise hands on to what the rule gives.
fn push_passed(
    change: &Change,
    flows: &mut Vec<Flow>,
    rule: &Rule,
    premise: u32,
    reading: Reading,
) -> Result<(), NoMemory>
    requires told { IsTold change.now }
    requires reading { IsReading (change_of change.now) rule.now reading }
    requires among { IsIn rule.now change.now.spec.now.rules }
    requires premise { rule.now.premise ≡ Some premise }
    ensures { IfOk result (λ _. (gain : FlowOf) × (loss : FlowOf)
        × IsPassing (change_of change.now) rule.now premise Gain gain
        × IsPassing (change_of change.now) rule.now premise Loss loss
        × (flows.new.items ≡ flows.old.items ++ gain ∷ loss ∷ [])) }
{
    let base = &change.spec.base;
    let symbol = rule.inc.symbol();
    let keeps = is_own(&rule.inc);
    flows.push(Flow {
        from: row_of(base, Direction::Gain, Symbol::Set(premise)),
        to: row_of(base, Direction::Gain, symbol),
        keeps,
        without_written: reading.blocked_joining,
        without_fresh: change.is_blocked_at_f(rule),
    })?;
    flows.push(Flow {
        from: row_of(base, Direction::Loss, Symbol::Set(premise)),
        to: row_of(base, Direction::Loss, symbol),
        keeps,
        without_written: false,
        without_fresh: false,
    })?;
    Ok(())
}

// What rules may gain and lose at the written and at the fresh record, and what the premises of
// all rules hand on; each rule is gone over once.
fn rule_rows(alloc: Global, change: &Change) -> Result<(Vec<Tags>, Vec<Flow>), NoMemory>
    requires told { IsTold change.now }
    ensures places { IfOk result (λ found. length found.0.items
        ≡ table.row_count change.now.spec.now.base) }
    ensures exactly { IfOk result (λ found. (row : ℕ) (tag : TagOf)
        → IsTrue (has_row_tag found.0.items row tag)
        ↔ IsChangedBy (change_of change.now) change.now.spec.now.rules row tag) }
    ensures flows { IfOk result (λ found. AreRuleFlows (change_of change.now)
        change.now.spec.now.rules found.1.items) }
{
    let base = &change.spec.base;
    let rules = change.spec.rules.items();
    let mut rows = vec![in alloc; NO_TAGS; 2 * symbol_count(base)]?;
    let mut flows = Vec::with_capacity(alloc, 2 * (rules.len() + base.sets.items().len()))?;
    for rule in rules {
        let touch = change.touch(rule);
        add_changes(change, &mut rows, rule, touch);
        if let Some(premise) = rule.premise {
            push_passed(change, &mut flows, rule, premise, touch.reading)?;
        }
    }
    Ok((rows, flows))
}

// What a set hands on to its complement, the other way round.
fn swapped(structures: &Structures, set: u32, base: u32, from: Direction, to: Direction) -> Flow
    requires typed { AreTyped structures.now }
    ensures { result ≡ table.swapped_flow structures.now set base from to }
{
    Flow {
        from: row_of(structures, from, Symbol::Set(base)),
        to: row_of(structures, to, Symbol::Set(set)),
        keeps: true,
        without_written: false,
        without_fresh: false,
    }
}

// Adds what the set's base hands on to it, if it is a complement.
fn push_complement(
    structures: &Structures,
    flows: &mut Vec<Flow>,
    set: u32,
    declared: &SetDecl,
) -> Result<(), NoMemory>
    requires typed { AreTyped structures.now }
    ensures { IfOk result (λ _. flows.new.items
        ≡ flows.old.items ++ table.complement_flows structures.now set declared.now) }
{
    let Some(base) = declared.except else {
        return Ok(());
    };
    flows.push(swapped(structures, set, base, Direction::Gain, Direction::Loss))?;
    flows.push(swapped(structures, set, base, Direction::Loss, Direction::Gain))?;
    Ok(())
}

// Adds what sets hand on to their complements.
fn push_complements(structures: &Structures, flows: &mut Vec<Flow>) -> Result<(), NoMemory>
    requires typed { AreTyped structures.now }
    ensures { IfOk result (λ _. flows.new.items ≡ flows.old.items
        ++ each_at (table.complement_flows structures.now) 0 structures.now.sets) }
{
    for (set, declared) in structures.sets.items().iter().enumerate() {
        push_complement(structures, flows, set as u32, declared)?;
    }
    Ok(())
}

/// Of which records the symbol may gain or lose facts by the table.
pub fn tags_of(base: &Structures, effect: &Effect, direction: Direction, symbol: Symbol) -> Tags
    requires typed { AreTyped base.now }
    ensures { (tag : TagOf) → has_tag tag result ≡ changes base.now effect.now direction symbol tag }
{
    let rows = match direction {
        Direction::Gain => effect.gains.items(),
        Direction::Loss => effect.losses.items(),
    };
    match rows.get(symbol_number(base, symbol)) {
        Some(tags) => *tags,
        None => NO_TAGS,
    }
}

/// Whether the symbol may gain or lose facts by the table, of whatever record.
pub fn may_change(base: &Structures, effect: &Effect, direction: Direction, symbol: Symbol) -> bool
    requires typed { AreTyped base.now }
    ensures { Decides result
        ((tag : TagOf) × IsTrue (changes base.now effect.now direction symbol tag)) }
{
    is_some(tags_of(base, effect, direction, symbol))
}

/// The least table that has what the update changes itself and what its rows hand on.
pub fn effect_of(alloc: Global, change: &Change) -> Result<Effect, NoMemory>
    requires told { IsTold change.now }
    ensures gains { IfOk result (λ e. length e.gains
        ≡ table.symbol_count change.now.spec.now.base) }
    ensures losses { IfOk result (λ e. length e.losses
        ≡ table.symbol_count change.now.spec.now.base) }
    ensures exactly { IfOk result (λ e. (direction : DirectionOf) (symbol : SymbolOf) (tag : TagOf)
        → IsDeclared change.now.spec.now.base symbol
        → IsTrue (changes change.now.spec.now.base e direction symbol tag)
        ↔ InTable (change_of change.now) direction symbol tag) }
{
    let (mut rows, mut flows) = rule_rows(alloc, change)?;
    push_complements(&change.spec.base, &mut flows)?;
    settle(&flows, &mut rows);
    let losses = rows.split_off(symbol_count(&change.spec.base))?;
    Ok(Effect {
        gains: Seq::new(rows),
        losses: Seq::new(losses),
    })
}
