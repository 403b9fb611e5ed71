// Updates that set a value.
ghost use Rattle.std.specs.Prelude.{◌≡◌, [], ◌∷◌, IfOk, None, is_some, option_map, if◌then◌else◌};
ghost use Rattle.dsr_ir.specs.declared.updates.Goal.TheVariants as goals;
ghost use Rattle.dsr_ir.specs.declared.updates.Symbol.TheVariants as symbols;
ghost use Rattle.dsr_meaning.specs.Typed.{IsTyped};
ghost use Rattle.dsr_update_theory.specs.Givers.{givers};
ghost use Rattle.dsr_update_theory.specs.Givers as kinds;
ghost use Rattle.dsr_update_theory.specs.Templates as templates;
ghost use Rattle.dsr_goal.specs.Raws.{only, slot_template};

use crate::adding::{adding, push_made};
use crate::fields::value_write;
use crate::kinds::is_single;
use dsr_ir::{
    At, Bound, Goal, Inc, NoMemory, Path, Pick, Place, Rule, Seq, Span, Spec, Structures, Symbol,
    Template, Update, Var, Write,
};
use std::alloc::Global;

/// The rule that alone gives facts of the symbol, with its number; none where no rule or several
/// do.
pub fn only_giver(spec: &Spec, symbol: Symbol) -> Option<(u32, &Rule)>
    requires typed { IsTyped spec.now }
    ensures { option_map (λ r. (r.0, r.1.now)) result ≡ only (givers spec.now symbol) }
{
    let mut found = None;
    for (number, rule) in spec.rules.items().iter().enumerate() {
        if rule.inc.gives(symbol) {
            if found.is_some() {
                return None;
            }
            found = Some((number as u32, rule));
        }
    }
    found
}

// Sets the value where a rule gives the record with a number.
fn own_setting(
    alloc: Global,
    base: &Structures,
    var: Var,
    pick: Pick,
    number: u32,
    span: Span,
    path: Path,
) -> Result<Option<Template>, NoMemory>
    ensures { IfOk result (λ made. made ≡ (if kinds.is_single span
        then option_map
        (λ write. templates.adding goals.SetValue number var None (write ∷ []))
        (templates.value_write base.now pick path) else None)) }
{
    if !is_single(span) {
        return Ok(None);
    }
    let Some(write) = value_write(base, pick, path) else {
        return Ok(None);
    };
    let mut writes = Vec::new(alloc);
    writes.push(write)?;
    Ok(Some(adding(alloc, Goal::SetValue, number, var, None, writes)?))
}

// The entry of the variable's slot gets the written value.
fn slot_update(alloc: Global, var: Var, number: u32, write: Write) -> Result<Template, NoMemory>
    ensures { IfOk result (λ t. t ≡ slot_template var number write) }
{
    let mut writes = Vec::new(alloc);
    writes.push(write)?;
    let mut updates = Vec::new(alloc);
    updates.push(Update {
        rule: number,
        place: Place::Head,
        at: At::SlotOf(var),
        writes: Seq::new(writes),
        fresh: None,
    })?;
    Ok(Template {
        goal: Goal::SetValue,
        updates: Seq::new(updates),
    })
}

// Sets the value where a rule of the head gives slots with numbers.
fn slot_setting(
    alloc: Global,
    base: &Structures,
    var: Var,
    pick: Pick,
    number: u32,
    premise: Option<u32>,
    path: Path,
) -> Result<Option<Template>, NoMemory>
    ensures { IfOk result (λ made. made ≡ (if is_some premise then None
        else option_map (slot_template var number) (templates.value_write base.now pick path))) }
{
    if premise.is_some() {
        return Ok(None);
    }
    let Some(write) = value_write(base, pick, path) else {
        return Ok(None);
    };
    Ok(Some(slot_update(alloc, var, number, write)?))
}

// Sets the value at the record or the slot that the rule gives.
fn setting(
    alloc: Global,
    base: &Structures,
    var: Var,
    pick: Pick,
    number: u32,
    rule: &Rule,
) -> Result<Option<Template>, NoMemory>
    ensures { IfOk result (λ made. made
        ≡ templates.setting base.now var pick number rule.now rule.now.inc) }
{
    match rule.inc {
        Inc::OwnPair(_, path) => own_setting(alloc, base, var, pick, number, rule.span, path),
        Inc::SlotPair(_, _, path) => {
            slot_setting(alloc, base, var, pick, number, rule.premise, path)
        }
        Inc::Own(_) | Inc::Target(_, _) | Inc::Slot(_, _) => Ok(None),
    }
}

// What is written so that a value meets the bound.
fn pick_of(bound: Bound) -> Pick
    ensures { result ≡ templates.pick_of bound }
{
    match bound {
        Bound::Num(number) => Pick::Num(number),
        Bound::Size(measure) => Pick::SizeOf(measure),
    }
}

/// The templates that set the value of the variable's record, where one rule alone gives the
/// relation.
pub fn settings(
    alloc: Global,
    spec: &Spec,
    var: Var,
    rel: u32,
    bound: Bound,
) -> Result<Vec<Template>, NoMemory>
    requires typed { IsTyped spec.now }
    ensures { IfOk result (λ ts. ts.items ≡ templates.settings spec.now.base var
        (templates.pick_of bound) (givers spec.now (symbols.Rel rel))) }
{
    let mut templates = Vec::new(alloc);
    if let Some((number, rule)) = only_giver(spec, Symbol::Rel(rel)) {
        let made = setting(alloc, &spec.base, var, pick_of(bound), number, rule)?;
        push_made(&mut templates, made)?;
    }
    Ok(templates)
}
