// Updates by which something joins a set or a relation.
ghost use Rattle.std.specs.Prelude.{◌≡◌, ◌++◌, IfOk, OnOk, option_map, if◌then◌else◌, None, true};
ghost use Rattle.dsr_meaning.specs.Lists.{any_of};
ghost use Rattle.dsr_meaning.specs.Typed.{AreTyped};
ghost use Rattle.dsr_update_theory.specs.Givers as givers;
ghost use Rattle.dsr_update_theory.specs.Guards as guards;
ghost use Rattle.dsr_update_theory.specs.Templates as templates;
ghost use Rattle.dsr_update_theory.specs.Templates.{listed};
ghost use Rattle.dsr_goal.specs.Knowing.{known_by};

use crate::fields::{reference_write, referred};
use crate::guards::guard_write;
use crate::kinds::{is_own, is_single};
use crate::known::Known;
use dsr_ir::{
    At, FieldRef, Goal, Guard, Inc, NoMemory, Path, Pick, Place, Rule, Seq, Span, Structures,
    Template, Test, Update, Var, Write,
};
use std::alloc::Global;

// The record of a variable.
fn place_of(var: Var) -> Place
    ensures { result ≡ templates.place_of var }
{
    match var {
        Var::Head => Place::Head,
        Var::First | Var::Second => Place::Of(var),
    }
}

// Whether the variable's record is one from which the rule starts.
fn starts_at(known: &Known, var: Var, rule: &Rule) -> bool
    ensures { result ≡ templates.starts_at (known_by known.now) var rule.now }
{
    match (rule.premise, var) {
        (None, Var::Head) => true,
        (None, Var::First | Var::Second) => false,
        (Some(set), _) => known.has(var, set),
    }
}

// Whether the rule starts at the variable's record and has no index.
fn serves(known: &Known, var: Var, rule: &Rule) -> bool
    ensures { result ≡ templates.serves (known_by known.now) var rule.now }
{
    is_single(rule.span) && starts_at(known, var, rule)
}

// Whether the guard is one on this field.
fn is_on(field: FieldRef, guard: &Guard) -> bool
    ensures { result ≡ templates.is_on field guard.now }
{
    guard.path.field == field
}

// Whether a reference to a slot passes the test.
fn passes_slot(test: Test) -> bool
    ensures { result ≡ templates.passes_slot test }
{
    match test {
        Test::Legal | Test::IsSome => true,
        Test::Cmp(_, _) | Test::Illegal | Test::IsNone => false,
    }
}

// Whether the guards on the field ask for no more than a slot.
fn accept_slot(field: FieldRef, guards: &[Guard]) -> bool
    ensures { result ≡ templates.accept_slot field guards.now }
{
    for guard in guards {
        if is_on(field, guard) && !passes_slot(guard.test) {
            return false;
        }
    }
    true
}

// The guards on other fields.
fn others(alloc: Global, field: FieldRef, guards: &[Guard]) -> Result<Vec<Guard>, NoMemory>
    ensures { IfOk result (λ gs. gs.items ≡ templates.others field guards.now) }
{
    let mut others = Vec::new(alloc);
    for guard in guards {
        if !is_on(field, guard) {
            others.push(*guard)?;
        }
    }
    Ok(others)
}

// Whether one of the guards is on this field.
fn is_any_on(field: FieldRef, guards: &[Guard]) -> bool
    ensures { result ≡ any_of (templates.is_on field) guards.now }
{
    for guard in guards {
        if is_on(field, guard) {
            return true;
        }
    }
    false
}

// The write that makes the guard true; none where one of the others is on the same field, which
// would then be written twice.
fn sole_write(base: &Structures, guard: &Guard, others: &[Guard]) -> Option<Write>
    requires typed { AreTyped base.now }
    ensures { result ≡ (if any_of (templates.is_on guard.now.path.field) others.now then None
        else guards.guard_write base.now true guard.now) }
{
    if is_any_on(guard.path.field, others) {
        return None;
    }
    guard_write(base, true, guard)
}

// The first writes, and those that make each guard true.
fn all_true(
    alloc: Global,
    base: &Structures,
    guards: &[Guard],
    first: Vec<Write>,
) -> Result<Option<Vec<Write>>, NoMemory>
    requires typed { AreTyped base.now }
    ensures { IfOk result (λ made. option_map (λ ws. ws.items) made
        ≡ option_map (λ ws. first.items ++ ws) (templates.all_true base.now guards.now)) }
{
    let mut writes = first;
    for (place, guard) in guards.iter().enumerate() {
        let Some(write) = sole_write(base, guard, &guards[place + 1..]) else {
            return Ok(None);
        };
        writes.push(write)?;
    }
    Ok(Some(writes))
}

// The target gets the code of a slot, and each other guard is made true.
fn target_writes(
    alloc: Global,
    base: &Structures,
    pick: Pick,
    path: Path,
    guards: &[Guard],
) -> Result<Option<Vec<Write>>, NoMemory>
    requires typed { AreTyped base.now }
    ensures { IfOk result (λ made. option_map (λ ws. ws.items) made
        ≡ templates.target_writes base.now pick path guards.now) }
{
    if !accept_slot(path.field, guards) {
        return Ok(None);
    }
    let Some(write) = reference_write(base, pick, path) else {
        return Ok(None);
    };
    let mut writes = Vec::new(alloc);
    writes.push(write)?;
    let others = others(alloc, path.field, guards)?;
    all_true(alloc, base, &others, writes)
}

/// A template for the goal: one update by the rule with this number, on the record of a variable.
pub fn adding(
    alloc: Global,
    goal: Goal,
    number: u32,
    var: Var,
    fresh: Option<u32>,
    writes: Vec<Write>,
) -> Result<Template, NoMemory>
    ensures { IfOk result (λ t. t ≡ templates.adding goal number var fresh writes.items) }
{
    let mut updates = Vec::new(alloc);
    updates.push(Update {
        rule: number,
        place: place_of(var),
        at: At::Scalar,
        writes: Seq::new(writes),
        fresh,
    })?;
    Ok(Template {
        goal,
        updates: Seq::new(updates),
    })
}

/// Puts the template that was made, if any, behind the others.
pub fn push_made(templates: &mut Vec<Template>, made: Option<Template>) -> Result<(), NoMemory>
    ensures { OnOk result (templates.new.items ≡ templates.old.items ++ listed made) }
{
    if let Some(template) = made {
        templates.push(template)?;
    }
    Ok(())
}

/// A template by which the variable's record becomes a member, by a rule that gives the record
/// itself; none where the rule can't do that.
pub fn joins_by(
    alloc: Global,
    base: &Structures,
    known: &Known,
    var: Var,
    number: u32,
    rule: &Rule,
) -> Result<Option<Template>, NoMemory>
    requires typed { AreTyped base.now }
    ensures { IfOk result (λ made. listed made
        ≡ templates.joins_by base.now (known_by known.now) var number rule.now) }
{
    if !is_own(&rule.inc) || !serves(known, var, rule) {
        return Ok(None);
    }
    let Some(writes) = all_true(alloc, base, rule.guards.items(), Vec::new(alloc))? else {
        return Ok(None);
    };
    Ok(Some(adding(alloc, Goal::AddSet, number, var, None, writes)?))
}

/// A template by which a pair joins a relation, by a rule that gives the record with a reference;
/// none where the rule can't do that.
pub fn relates_by(
    alloc: Global,
    base: &Structures,
    known: &Known,
    source: Var,
    target: Var,
    number: u32,
    rule: &Rule,
) -> Result<Option<Template>, NoMemory>
    requires typed { AreTyped base.now }
    ensures { IfOk result (λ made. listed made
        ≡ templates.relates_by base.now (known_by known.now) source target number rule.now) }
{
    if !is_own(&rule.inc) || !serves(known, source, rule) {
        return Ok(None);
    }
    let Some(path) = rule.inc.target() else {
        return Ok(None);
    };
    let pick = Pick::CodeOf(target);
    let Some(writes) = target_writes(alloc, base, pick, path, rule.guards.items())? else {
        return Ok(None);
    };
    Ok(Some(adding(alloc, Goal::AddTuple, number, source, None, writes)?))
}

/// A template by which a fresh record joins, by a rule that gives the target of a reference of the
/// variable's record; none where the rule can't do that.
pub fn supplies_by(
    alloc: Global,
    base: &Structures,
    known: &Known,
    var: Var,
    number: u32,
    rule: &Rule,
) -> Result<Option<Template>, NoMemory>
    requires typed { AreTyped base.now }
    ensures { IfOk result (λ made. listed made
        ≡ templates.supplies_by base.now (known_by known.now) var number rule.now) }
{
    if !serves(known, var, rule) {
        return Ok(None);
    }
    let Some(path) = rule.inc.target() else {
        return Ok(None);
    };
    let Some(writes) = target_writes(alloc, base, Pick::Fresh, path, rule.guards.items())? else {
        return Ok(None);
    };
    let fresh = referred(base, path.field);
    Ok(Some(adding(alloc, Goal::Supply, number, var, fresh, writes)?))
}
