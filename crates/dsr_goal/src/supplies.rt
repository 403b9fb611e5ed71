// Updates that supply a fresh record to what is counted.
ghost use Rattle.std.specs.Prelude.{◌≡◌, [], ◌&&◌, IfOk, is_some, option_and_then, slice_get, if◌then◌else◌};
ghost use Rattle.std.specs.List.{flat_map};
ghost use Rattle.dsr_ir.specs.Rules.{gives};
ghost use Rattle.dsr_ir.specs.declared.updates.Symbol.TheVariants as symbols;
ghost use Rattle.dsr_meaning.specs.Typed.{AreTyped, IsTyped};
ghost use Rattle.dsr_update_theory.specs.Givers as givers;
ghost use Rattle.dsr_update_theory.specs.Templates as templates;
ghost use Rattle.dsr_update_theory.specs.Templates.{listed};
ghost use Rattle.dsr_goal.specs.Knowing.{known_by};

use crate::adding::{push_made, supplies_by};
use crate::kinds::is_own;
use crate::known::Known;
use dsr_ir::{Inc, Measure, NoMemory, Quant, Rule, Spec, Structures, Symbol, Template, Var};
use std::alloc::Global;

// The variables of a quantifier, `head` among them.
fn variables(quant: &Quant) -> &'static [Var]
    ensures { result.now ≡ templates.variables quant.now }
{
    match quant {
        Quant::Once => &[Var::Head],
        Quant::Each(_) => &[Var::Head, Var::First],
        Quant::Pairs(_) => &[Var::Head, Var::First, Var::Second],
    }
}

// Whether the rule gives the target of a reference as a member.
fn is_target(inc: &Inc) -> bool
    ensures { result ≡ templates.is_target inc.now }
{
    matches!(inc, Inc::Target(_, _))
}

// The updates by a rule, one for each variable's record where it starts.
fn supplies_at_each(
    alloc: Global,
    base: &Structures,
    known: &Known,
    variables: &[Var],
    number: u32,
    rule: &Rule,
) -> Result<Vec<Template>, NoMemory>
    requires typed { AreTyped base.now }
    ensures { IfOk result (λ ts. ts.items
        ≡ flat_map (λ v. templates.supplies_by base.now (known_by known.now) v number rule.now)
        variables.now) }
{
    let mut templates = Vec::new(alloc);
    for var in variables {
        let made = supplies_by(alloc, base, known, *var, number, rule)?;
        push_made(&mut templates, made)?;
    }
    Ok(templates)
}

// The updates by a rule, where it gives targets to the set.
fn supplies_to_set(
    alloc: Global,
    spec: &Spec,
    known: &Known,
    quant: &Quant,
    set: u32,
    number: u32,
    rule: &Rule,
) -> Result<Vec<Template>, NoMemory>
    requires typed { IsTyped spec.now }
    ensures { IfOk result (λ ts. ts.items ≡ (if gives (symbols.Set set) rule.now.inc
        then (if templates.is_target rule.now.inc
        then flat_map
        (λ v. templates.supplies_by spec.now.base (known_by known.now) v number rule.now)
        (templates.variables quant.now) else []) else [])) }
{
    if !rule.inc.gives(Symbol::Set(set)) || !is_target(&rule.inc) {
        return Ok(Vec::new(alloc));
    }
    supplies_at_each(alloc, &spec.base, known, variables(quant), number, rule)
}

// A fresh member of a set, by each rule and then each variable.
fn set_supplies(
    alloc: Global,
    spec: &Spec,
    known: &Known,
    quant: &Quant,
    set: u32,
) -> Result<Vec<Template>, NoMemory>
    requires typed { IsTyped spec.now }
    ensures { IfOk result (λ ts. ts.items
        ≡ templates.set_supplies spec.now (known_by known.now) quant.now set) }
{
    let mut templates = Vec::new(alloc);
    for (number, rule) in spec.rules.items().iter().enumerate() {
        let mut more = supplies_to_set(alloc, spec, known, quant, set, number as u32, rule)?;
        templates.append(&mut more)?;
    }
    Ok(templates)
}

// Whether the relation's targets are records.
fn relates_records(base: &Structures, rel: u32) -> bool
    ensures { result ≡ is_some (option_and_then (λ r. r.target) (slice_get base.now.rels rel)) }
{
    match base.rels.items().get(rel as usize) {
        Some(rel) => rel.target.is_some(),
        None => false,
    }
}

// The update by a rule, where it gives pairs of records of the relation.
fn target_supply(
    alloc: Global,
    spec: &Spec,
    known: &Known,
    var: Var,
    rel: u32,
    number: u32,
    rule: &Rule,
) -> Result<Option<Template>, NoMemory>
    requires typed { IsTyped spec.now }
    ensures { IfOk result (λ made. listed made ≡ (if gives (symbols.Rel rel) rule.now.inc
        then (if givers.is_own rule.now.inc
        && is_some (option_and_then (λ r. r.target) (slice_get spec.now.base.rels rel))
        then templates.supplies_by spec.now.base (known_by known.now) var number rule.now else [])
        else [])) }
{
    if !rule.inc.gives(Symbol::Rel(rel))
        || !is_own(&rule.inc)
        || !relates_records(&spec.base, rel)
    {
        return Ok(None);
    }
    supplies_by(alloc, &spec.base, known, var, number, rule)
}

// A fresh target of a variable's record, under a relation of records.
fn target_supplies(
    alloc: Global,
    spec: &Spec,
    known: &Known,
    var: Var,
    rel: u32,
) -> Result<Vec<Template>, NoMemory>
    requires typed { IsTyped spec.now }
    ensures { IfOk result (λ ts. ts.items
        ≡ templates.target_supplies spec.now (known_by known.now) var rel) }
{
    let mut templates = Vec::new(alloc);
    for (number, rule) in spec.rules.items().iter().enumerate() {
        let made = target_supply(alloc, spec, known, var, rel, number as u32, rule)?;
        push_made(&mut templates, made)?;
    }
    Ok(templates)
}

/// The templates that supply what is counted; sources can't be supplied.
pub fn supplies(
    alloc: Global,
    spec: &Spec,
    known: &Known,
    quant: &Quant,
    measure: &Measure,
) -> Result<Vec<Template>, NoMemory>
    requires typed { IsTyped spec.now }
    ensures { IfOk result (λ ts. ts.items
        ≡ templates.supplies spec.now (known_by known.now) quant.now measure.now) }
{
    match *measure {
        Measure::Whole(set) => set_supplies(alloc, spec, known, quant, set),
        Measure::Out(var, rel) => target_supplies(alloc, spec, known, var, rel),
        Measure::Into(_, _) => Ok(Vec::new(alloc)),
    }
}
