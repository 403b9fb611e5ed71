// What the updates for literals may change.
ghost use Rattle.dsr_effect.specs.Contexts.{IsSound};
ghost use Rattle.dsr_meaning.specs.Typed.{IsTyped};

use anyhow::bail;
use dsr_effect::Context;
use dsr_facts::facts_before;
use dsr_goal::raw;
use dsr_ir::{Conj, Goal, Spec, Template, Update};
use dsr_test_text::Lines;
use dsr_update_theory::{Effect, Tags};
use std::alloc::Global;

fn add_tag(lines: &mut Lines, has: bool, word: &str) {
    if has {
        lines.word(word);
    }
}

fn add_tags(lines: &mut Lines, word: &str, symbol: usize, tags: Tags) {
    if !(tags.written || tags.entry || tags.fresh || tags.any) {
        return;
    }
    lines.part(word, symbol as u64);
    add_tag(lines, tags.written, " written");
    add_tag(lines, tags.entry, " entry");
    add_tag(lines, tags.fresh, " fresh");
    add_tag(lines, tags.any, " any");
}

fn add_effect(lines: &mut Lines, effect: &Effect) {
    for (symbol, tags) in effect.gains.items().iter().enumerate() {
        add_tags(lines, " +", symbol, *tags);
    }
    for (symbol, tags) in effect.losses.items().iter().enumerate() {
        add_tags(lines, " -", symbol, *tags);
    }
    lines.word("\n");
}

// The goal of an update, by its place in the template.
fn goal_of(template: &Template, place: usize) -> Goal {
    match template.goal {
        Goal::ExactlyOne if place == 0 => Goal::Supply,
        Goal::ExactlyOne => Goal::Trim,
        goal => goal,
    }
}

fn add_update(
    lines: &mut Lines,
    alloc: Global,
    context: &Context,
    goal: Goal,
    update: &Update,
) -> anyhow::Result<()>
    requires sound { IsSound context.now }
{
    let Ok(effect) = context.effect(alloc, goal, update) else {
        bail!("no memory");
    };
    lines.part("      rule ", u64::from(update.rule));
    lines.word(":");
    add_effect(lines, &effect);
    Ok(())
}

fn add_template(
    lines: &mut Lines,
    alloc: Global,
    context: &Context,
    template: &Template,
) -> anyhow::Result<()>
    requires sound { IsSound context.now }
{
    for (place, update) in template.updates.items().iter().enumerate() {
        add_update(lines, alloc, context, goal_of(template, place), update)?;
    }
    Ok(())
}

fn add_templates(
    lines: &mut Lines,
    alloc: Global,
    context: &Context,
    templates: &[Template],
) -> anyhow::Result<()>
    requires sound { IsSound context.now }
{
    for template in templates {
        add_template(lines, alloc, context, template)?;
    }
    Ok(())
}

fn add_literal(
    lines: &mut Lines,
    alloc: Global,
    spec: &Spec,
    context: &Context,
    constraint: u32,
    conj: usize,
    literal: usize,
) -> anyhow::Result<()>
    requires typed { IsTyped spec.now }
    requires sound { IsSound context.now }
{
    let (Ok(conj), Ok(literal)) = (u32::try_from(conj), u32::try_from(literal)) else {
        bail!("more literals than there are numbers");
    };
    let Ok(templates) = raw(alloc, spec, constraint, conj, literal) else {
        bail!("no memory");
    };
    lines.part("    literal ", u64::from(conj) + 1);
    lines.part(".", u64::from(literal) + 1);
    lines.word("\n");
    add_templates(lines, alloc, context, &templates)
}

fn add_conj(
    lines: &mut Lines,
    alloc: Global,
    spec: &Spec,
    context: &Context,
    constraint: u32,
    number: usize,
    conj: &Conj,
) -> anyhow::Result<()>
    requires typed { IsTyped spec.now }
    requires sound { IsSound context.now }
{
    for literal in 0..conj.literals.items().len() {
        add_literal(lines, alloc, spec, context, constraint, number, literal)?;
    }
    Ok(())
}

fn add_conjs(
    lines: &mut Lines,
    alloc: Global,
    spec: &Spec,
    context: &Context,
    number: u32,
    conjs: &[Conj],
) -> anyhow::Result<()>
    requires typed { IsTyped spec.now }
    requires sound { IsSound context.now }
{
    for (conj, literals) in conjs.iter().enumerate() {
        add_conj(lines, alloc, spec, context, number, conj, literals)?;
    }
    Ok(())
}

/// What the updates for each literal of a constraint may change.
pub fn add_literals(
    lines: &mut Lines,
    alloc: Global,
    spec: &Spec,
    number: u32,
) -> anyhow::Result<()>
    requires typed { IsTyped spec.now }
{
    let Some(constraint) = spec.constraints.items().get(number as usize) else {
        return Ok(());
    };
    let Ok(facts) = facts_before(alloc, spec, number) else {
        bail!("no memory");
    };
    let context = Context::new(spec, &facts, &constraint.quant);
    add_conjs(
        lines,
        alloc,
        spec,
        &context,
        number,
        constraint.conjs.items(),
    )
}
