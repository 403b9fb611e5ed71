// The facts that a constraint uses, and the sets of which its variables are known to be members.
ghost use Rattle.dsr_meaning.specs.Typed.{IsTyped, IsTypedQuant};

use anyhow::bail;
use dsr_facts::{Facts, facts_before, known};
use dsr_ir::{Quant, Spec, Var};
use dsr_test_text::Lines;
use std::alloc::Global;

fn add_numbers(lines: &mut Lines, word: &str, numbers: &[u32]) {
    lines.word(word);
    for number in numbers {
        lines.part(" ", u64::from(*number));
    }
    lines.word("\n");
}

fn add_pairs(lines: &mut Lines, word: &str, pairs: &[(u32, u32)]) {
    lines.word(word);
    for (first, second) in pairs {
        lines.part(" ", u64::from(*first));
        lines.part("-", u64::from(*second));
    }
    lines.word("\n");
}

fn add_known(
    lines: &mut Lines,
    alloc: Global,
    spec: &Spec,
    quant: &Quant,
    word: &str,
    var: Var,
) -> anyhow::Result<()>
    requires typed { IsTyped spec.now }
    requires quantifier { IsTypedQuant spec.now.base quant.now }
{
    let Ok(sets) = known(alloc, spec, quant, var) else {
        bail!("no memory");
    };
    add_numbers(lines, word, &sets);
    Ok(())
}

fn add_known_of(lines: &mut Lines, alloc: Global, spec: &Spec, quant: &Quant) -> anyhow::Result<()>
    requires typed { IsTyped spec.now }
    requires quantifier { IsTypedQuant spec.now.base quant.now }
{
    match quant {
        Quant::Once => Ok(()),
        Quant::Each(_) => add_known(lines, alloc, spec, quant, "    first in", Var::First),
        Quant::Pairs(_) => {
            add_known(lines, alloc, spec, quant, "    first in", Var::First)?;
            add_known(lines, alloc, spec, quant, "    second in", Var::Second)
        }
    }
}

fn add_gathered(lines: &mut Lines, facts: &Facts) {
    add_numbers(lines, "    injective", facts.injective.items());
    add_pairs(lines, "    exclusive", facts.exclusive.items());
    add_pairs(lines, "    apart", facts.apart.items());
    add_numbers(lines, "    from", facts.from.items());
}

fn add_before(lines: &mut Lines, alloc: Global, spec: &Spec, number: u32) -> anyhow::Result<()>
    requires typed { IsTyped spec.now }
{
    let Ok(facts) = facts_before(alloc, spec, number) else {
        bail!("no memory");
    };
    add_gathered(lines, &facts);
    Ok(())
}

/// The facts of the constraints before this one, and what is known of its variables.
pub fn add_facts(lines: &mut Lines, alloc: Global, spec: &Spec, number: u32) -> anyhow::Result<()>
    requires typed { IsTyped spec.now }
{
    add_before(lines, alloc, spec, number)?;
    match spec.constraints.items().get(number as usize) {
        Some(constraint) => add_known_of(lines, alloc, spec, &constraint.quant),
        None => Ok(()),
    }
}
