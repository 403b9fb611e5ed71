// The updates that are tried for a literal.
ghost use Rattle.dsr_meaning.specs.Typed.{IsTyped};

use anyhow::bail;
use dsr_goal::raw;
use dsr_ir::{Conj, Spec, Template};
use dsr_test_text::{Lines, add_template};
use std::alloc::Global;

fn add_literal(
    lines: &mut Lines,
    alloc: Global,
    spec: &Spec,
    constraint: u32,
    conj: usize,
    literal: usize,
) -> anyhow::Result<()>
    requires typed { IsTyped spec.now }
{
    let (Ok(conj), Ok(literal)) = (u32::try_from(conj), u32::try_from(literal)) else {
        bail!("more literals than there are numbers");
    };
    let Ok(templates) = raw(alloc, spec, constraint, conj, literal) else {
        bail!("no memory");
    };
    lines.part("    literal ", u64::from(conj) + 1);
    lines.part(".", u64::from(literal) + 1);
    lines.word("\n");
    add_templates(lines, &templates);
    Ok(())
}

fn add_templates(lines: &mut Lines, templates: &[Template]) {
    for template in templates {
        add_template(lines, template);
    }
}

fn add_conj(
    lines: &mut Lines,
    alloc: Global,
    spec: &Spec,
    constraint: u32,
    number: usize,
    conj: &Conj,
) -> anyhow::Result<()>
    requires typed { IsTyped spec.now }
{
    for literal in 0..conj.literals.items().len() {
        add_literal(lines, alloc, spec, constraint, number, literal)?;
    }
    Ok(())
}

/// The updates that are tried for each literal of a constraint.
pub fn add_literals(
    lines: &mut Lines,
    alloc: Global,
    spec: &Spec,
    number: u32,
) -> anyhow::Result<()>
    requires typed { IsTyped spec.now }
{
    let Some(constraint) = spec.constraints.items().get(number as usize) else {
        return Ok(());
    };
    for (conj, literals) in constraint.conjs.items().iter().enumerate() {
        add_conj(lines, alloc, spec, number, conj, literals)?;
    }
    Ok(())
}
