// Updates by which a record joins a set, or a pair of records a relation.
ghost use Rattle.std.specs.Prelude.{◌≡◌, [], IfOk, if◌then◌else◌};
ghost use Rattle.dsr_ir.specs.Rules.{gives};
ghost use Rattle.dsr_ir.specs.declared.updates.Symbol.TheVariants as symbols;
ghost use Rattle.dsr_meaning.specs.Typed.{IsTyped};
ghost use Rattle.dsr_update_theory.specs.Givers.{each_giver};
ghost use Rattle.dsr_update_theory.specs.Templates as templates;
ghost use Rattle.dsr_update_theory.specs.Templates.{listed};
ghost use Rattle.dsr_goal.specs.Knowing.{known_by};

use crate::adding::{joins_by, push_made, relates_by};
use crate::known::Known;
use dsr_ir::{NoMemory, Rule, Spec, Symbol, Template, Var};
use std::alloc::Global;

// The update by a rule, where it gives members of the set.
fn member_join(
    alloc: Global,
    spec: &Spec,
    known: &Known,
    var: Var,
    set: u32,
    number: u32,
    rule: &Rule,
) -> Result<Option<Template>, NoMemory>
    requires typed { IsTyped spec.now }
    ensures { IfOk result (λ made. listed made ≡ (if gives (symbols.Set set) rule.now.inc
        then templates.joins_by spec.now.base (known_by known.now) var number rule.now else [])) }
{
    if !rule.inc.gives(Symbol::Set(set)) {
        return Ok(None);
    }
    joins_by(alloc, &spec.base, known, var, number, rule)
}

/// The templates by which the variable's record becomes a member of the set.
pub fn member_joins(
    alloc: Global,
    spec: &Spec,
    known: &Known,
    var: Var,
    set: u32,
) -> Result<Vec<Template>, NoMemory>
    requires typed { IsTyped spec.now }
    ensures { IfOk result (λ ts. ts.items ≡ each_giver spec.now (symbols.Set set)
        (templates.joins_by spec.now.base (known_by known.now) var)) }
{
    let mut templates = Vec::new(alloc);
    for (number, rule) in spec.rules.items().iter().enumerate() {
        let made = member_join(alloc, spec, known, var, set, number as u32, rule)?;
        push_made(&mut templates, made)?;
    }
    Ok(templates)
}

// The update by a rule, where it gives pairs of the relation.
fn pair_join(
    alloc: Global,
    spec: &Spec,
    known: &Known,
    pair: (Var, Var),
    rel: u32,
    number: u32,
    rule: &Rule,
) -> Result<Option<Template>, NoMemory>
    requires typed { IsTyped spec.now }
    ensures { IfOk result (λ made. listed made ≡ (if gives (symbols.Rel rel) rule.now.inc
        then templates.relates_by spec.now.base (known_by known.now) pair.0 pair.1 number rule.now
        else [])) }
{
    if !rule.inc.gives(Symbol::Rel(rel)) {
        return Ok(None);
    }
    let (source, target) = pair;
    relates_by(alloc, &spec.base, known, source, target, number, rule)
}

/// The templates by which the pair of the variables' records becomes one of the relation.
pub fn pair_joins(
    alloc: Global,
    spec: &Spec,
    known: &Known,
    pair: (Var, Var),
    rel: u32,
) -> Result<Vec<Template>, NoMemory>
    requires typed { IsTyped spec.now }
    ensures { IfOk result (λ ts. ts.items ≡ each_giver spec.now (symbols.Rel rel)
        (templates.relates_by spec.now.base (known_by known.now) pair.0 pair.1)) }
{
    let mut templates = Vec::new(alloc);
    for (number, rule) in spec.rules.items().iter().enumerate() {
        let made = pair_join(alloc, spec, known, pair, rel, number as u32, rule)?;
        push_made(&mut templates, made)?;
    }
    Ok(templates)
}
