// The updates that are tried for an atom, by its kind.
ghost use Rattle.std.specs.Prelude.{◌≡◌, ◌++◌, IfOk, OnOk, map};
ghost use Rattle.dsr_ir.specs.declared.constraints.Atom.TheVariants as atoms;
ghost use Rattle.dsr_ir.specs.declared.constraints.Quant as declared;
ghost use Rattle.dsr_ir.specs.declared.rules.Op.TheVariants as operators;
ghost use Rattle.dsr_ir.specs.declared.updates.Symbol.TheVariants as symbols;
ghost use Rattle.dsr_meaning.specs.Typed.{IsTyped};
ghost use Rattle.dsr_update_theory.specs.Templates as templates;
ghost use Rattle.dsr_update_theory.specs.Templates.{AreSized, AreTemplates, AreValued};
ghost use Rattle.dsr_goal.specs.Knowing.{known_by};
ghost use Rattle.dsr_goal.specs.Raws.{with_trim};

use crate::joining::{member_joins, pair_joins};
use crate::known::Known;
use crate::removing::{removals, trims};
use crate::supplies::supplies;
use crate::values::settings;
use dsr_ir::{
    Atom, Bound, Goal, Literal, Measure, NoMemory, Op, Quant, Seq, Spec, Symbol, Template,
    TryClone, Update, Var,
};
use std::alloc::Global;

// The variable's record becomes a member of the set, or is removed.
fn member(
    alloc: Global,
    spec: &Spec,
    known: &Known,
    var: Var,
    set: u32,
    negated: bool,
) -> Result<Vec<Template>, NoMemory>
    requires typed { IsTyped spec.now }
    ensures { IfOk result (λ ts. (quant : declared.Quant) → AreTemplates spec.now
        (known_by known.now) quant (atoms.Member var set) negated ts.items) }
{
    if negated {
        removals(alloc, spec, Symbol::Set(set), Goal::RemoveSet, Some(var))
    } else {
        member_joins(alloc, spec, known, var, set)
    }
}

// The pair of the variables' records becomes one of the relation, or is removed.
fn pair(
    alloc: Global,
    spec: &Spec,
    known: &Known,
    variables: (Var, Var),
    rel: u32,
    negated: bool,
) -> Result<Vec<Template>, NoMemory>
    requires typed { IsTyped spec.now }
    ensures { IfOk result (λ ts. (quant : declared.Quant) → AreTemplates spec.now
        (known_by known.now) quant (atoms.Pair variables.0 variables.1 rel) negated ts.items) }
{
    if negated {
        removals(
            alloc,
            spec,
            Symbol::Rel(rel),
            Goal::RemoveTuple,
            Some(variables.0),
        )
    } else {
        pair_joins(alloc, spec, known, variables, rel)
    }
}

// Puts copies of updates behind the others.
fn push_copies(alloc: Global, updates: &mut Vec<Update>, others: &[Update]) -> Result<(), NoMemory>
    ensures { OnOk result (updates.new.items ≡ updates.old.items ++ others.now) }
{
    for update in others {
        updates.push(update.clone(alloc)?)?;
    }
    Ok(())
}

// The updates of a supply, and behind them those of a trim.
fn with_trim(alloc: Global, supply: &Template, trim: &Template) -> Result<Template, NoMemory>
    ensures { IfOk result (λ t. t ≡ with_trim supply.now trim.now) }
{
    let mut updates = Vec::new(alloc);
    push_copies(alloc, &mut updates, supply.updates.items())?;
    push_copies(alloc, &mut updates, trim.updates.items())?;
    Ok(Template {
        goal: Goal::ExactlyOne,
        updates: Seq::new(updates),
    })
}

// A supply with each trim.
fn with_each_trim(
    alloc: Global,
    supply: &Template,
    trims: &[Template],
) -> Result<Vec<Template>, NoMemory>
    ensures { IfOk result (λ ts. ts.items ≡ map (with_trim supply.now) trims.now) }
{
    let mut templates = Vec::new(alloc);
    for trim in trims {
        templates.push(with_trim(alloc, supply, trim)?)?;
    }
    Ok(templates)
}

// Each supply with each trim.
fn with_trims(
    alloc: Global,
    supplied: &[Template],
    trims: &[Template],
) -> Result<Vec<Template>, NoMemory>
    ensures { IfOk result (λ ts. ts.items ≡ templates.with_trims supplied.now trims.now) }
{
    let mut templates = Vec::new(alloc);
    for supply in supplied {
        let mut more = with_each_trim(alloc, supply, trims)?;
        templates.append(&mut more)?;
    }
    Ok(templates)
}

// Where at least this many are wanted, one can be supplied if none is there.
fn at_least(
    alloc: Global,
    spec: &Spec,
    known: &Known,
    quant: &Quant,
    measure: &Measure,
    number: u64,
) -> Result<Vec<Template>, NoMemory>
    requires typed { IsTyped spec.now }
    ensures { IfOk result (λ ts. AreSized spec.now (known_by known.now) quant.now measure.now
        operators.Ge number ts.items) }
{
    if number == 1 {
        supplies(alloc, spec, known, quant, measure)
    } else {
        Ok(Vec::new(alloc))
    }
}

// Where exactly this many are wanted, all can be trimmed, or one supplied and the others trimmed.
fn exactly(
    alloc: Global,
    spec: &Spec,
    known: &Known,
    quant: &Quant,
    measure: &Measure,
    number: u64,
) -> Result<Vec<Template>, NoMemory>
    requires typed { IsTyped spec.now }
    ensures { IfOk result (λ ts. AreSized spec.now (known_by known.now) quant.now measure.now
        operators.Eq number ts.items) }
{
    if number == 0 {
        return trims(alloc, spec, measure);
    }
    if number != 1 {
        return Ok(Vec::new(alloc));
    }
    let supplied = supplies(alloc, spec, known, quant, measure)?;
    let trims = trims(alloc, spec, measure)?;
    with_trims(alloc, &supplied, &trims)
}

// What makes the number of what is counted meet the comparison.
fn sized(
    alloc: Global,
    spec: &Spec,
    known: &Known,
    quant: &Quant,
    measure: &Measure,
    op: Op,
    number: u64,
) -> Result<Vec<Template>, NoMemory>
    requires typed { IsTyped spec.now }
    ensures { IfOk result (λ ts. AreSized spec.now (known_by known.now) quant.now measure.now op
        number ts.items) }
{
    match op {
        Op::Le => trims(alloc, spec, measure),
        Op::Ge => at_least(alloc, spec, known, quant, measure, number),
        Op::Eq => exactly(alloc, spec, known, quant, measure, number),
        Op::Ne | Op::Lt | Op::Gt => Ok(Vec::new(alloc)),
    }
}

// What makes the value meet the comparison; one that it is not to be is no value to write.
fn valued(
    alloc: Global,
    spec: &Spec,
    var: Var,
    rel: u32,
    op: Op,
    bound: Bound,
) -> Result<Vec<Template>, NoMemory>
    requires typed { IsTyped spec.now }
    ensures { IfOk result (λ ts. AreValued spec.now var rel op bound ts.items) }
{
    match op {
        Op::Eq | Op::Le | Op::Ge => settings(alloc, spec, var, rel, bound),
        Op::Ne | Op::Lt | Op::Gt => Ok(Vec::new(alloc)),
    }
}

/// What makes the literal true, where these sets are known.
pub fn of_literal(
    alloc: Global,
    spec: &Spec,
    known: &Known,
    quant: &Quant,
    literal: &Literal,
) -> Result<Vec<Template>, NoMemory>
    requires typed { IsTyped spec.now }
    ensures { IfOk result (λ ts. templates.AreRaw spec.now (known_by known.now) quant.now
        literal.now ts.items) }
{
    let negated = literal.negated;
    match literal.atom {
        Atom::Member(var, set) => member(alloc, spec, known, var, set, negated),
        Atom::Pair(source, target, rel) => {
            pair(alloc, spec, known, (source, target), rel, negated)
        }
        Atom::Count(measure, op, number) => {
            sized(alloc, spec, known, quant, &measure, op, number)
        }
        Atom::Value(var, rel, op, bound) => valued(alloc, spec, var, rel, op, bound),
    }
}
