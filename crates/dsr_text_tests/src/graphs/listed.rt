// The updates that are listed for the literals of a constraint.
ghost use Rattle.dsr_meaning.specs.Typed.{IsTyped};
ghost use Rattle.dsr_compensate.specs.Owned.{IsSound};

use anyhow::bail;
use dsr_compensate::{Judged, Owner, listed};
use dsr_facts::facts_before;
use dsr_ir::{Conj, Spec};
use dsr_test_text::{Lines, add_template};
use std::alloc::Global;

fn add_listed(lines: &mut Lines, listed: &[Judged]) {
    for judged in listed {
        add_template(lines, &judged.template);
    }
}

fn add_literal(
    lines: &mut Lines,
    alloc: Global,
    owner: &Owner,
    conj: usize,
    literal: usize,
) -> anyhow::Result<()>
    requires sound { IsSound owner.now }
{
    let (Ok(conj), Ok(literal)) = (u32::try_from(conj), u32::try_from(literal)) else {
        bail!("more literals than there are numbers");
    };
    let Ok(listed) = listed(alloc, owner, conj, literal) else {
        bail!("no memory");
    };
    lines.part("    literal ", u64::from(conj) + 1);
    lines.part(".", u64::from(literal) + 1);
    lines.word("\n");
    add_listed(lines, &listed);
    Ok(())
}

fn add_conj(
    lines: &mut Lines,
    alloc: Global,
    owner: &Owner,
    number: usize,
    conj: &Conj,
) -> anyhow::Result<()>
    requires sound { IsSound owner.now }
{
    for literal in 0..conj.literals.items().len() {
        add_literal(lines, alloc, owner, number, literal)?;
    }
    Ok(())
}

/// The constraint's name, and below it what is listed for each literal.
pub fn add_constraint(
    lines: &mut Lines,
    alloc: Global,
    spec: &Spec,
    number: u32,
) -> anyhow::Result<()>
    requires typed { IsTyped spec.now }
{
    let Some(constraint) = spec.constraints.items().get(number as usize) else {
        return Ok(());
    };
    let Ok(facts) = facts_before(alloc, spec, number) else {
        bail!("no memory");
    };
    let owner = Owner::new(spec, &facts, number, constraint);
    lines.word("  constraint ");
    lines.name(&constraint.name);
    lines.word("\n");
    for (place, conj) in constraint.conjs.items().iter().enumerate() {
        add_conj(lines, alloc, &owner, place, conj)?;
    }
    Ok(())
}
