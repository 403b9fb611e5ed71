// What may turn literals false, and break constraints.
ghost use Rattle.std.specs.Prelude.{◌≡◌, ◌++◌, ◌∷◌, [], All, IfOk, MatchBool, OnOk, false};
ghost use Rattle.std.specs.List.{flat_map};
ghost use Rattle.dsr_graph_theory.specs.Causes as said;
ghost use Rattle.dsr_graph.specs.Told.{IsOfDeclared};
ghost use Rattle.dsr_meaning.specs.Typed.{IsTyped, IsTypedConstraint, IsTypedLiteral};
ghost use Rattle.dsr_meaning.specs.Counting.{IsIn};
ghost use Rattle.dsr_update_theory.specs.Templates.{AreOnce};

use dsr_goal::counted_symbol;
use dsr_graph_theory::{Cause, Reason};
use dsr_ir::{
    Atom, Bound, Conj, Constraint, Literal, Measure, NoMemory, Op, Quant, Spec, Symbol, Var,
};
use std::alloc::Global;

// The variable at whose record a size is read.
fn read_at(measure: &Measure) -> Option<Var>
    ensures { result ≡ said.read_at measure.now }
{
    match *measure {
        Measure::Out(var, _) => Some(var),
        Measure::Whole(_) | Measure::Into(_, _) => None,
    }
}

fn more_counted(measure: &Measure) -> Cause
    ensures { result ≡ said.more_counted measure.now }
{
    Cause {
        reason: Reason::Gain(counted_symbol(measure)),
        at: read_at(measure),
    }
}

fn fewer_counted(measure: &Measure) -> Cause
    ensures { result ≡ said.fewer_counted measure.now }
{
    Cause {
        reason: Reason::Loss(counted_symbol(measure)),
        at: read_at(measure),
    }
}

// Both ways in which a size may change.
fn push_size_changes(measure: &Measure, causes: &mut Vec<Cause>) -> Result<(), NoMemory>
    ensures { OnOk result (causes.new.items ≡ causes.old.items ++ said.size_changes measure.now) }
{
    causes.push(more_counted(measure))?;
    causes.push(fewer_counted(measure))?;
    Ok(())
}

// Those that may break a bound of a size.
fn push_size_causes(measure: &Measure, op: Op, causes: &mut Vec<Cause>) -> Result<(), NoMemory>
    ensures { OnOk result (causes.new.items ≡ causes.old.items ++ said.size_causes measure.now op) }
{
    match op {
        Op::Le => {
            causes.push(more_counted(measure))?;
            Ok(())
        }
        Op::Ge => {
            causes.push(fewer_counted(measure))?;
            Ok(())
        }
        Op::Eq | Op::Ne | Op::Lt | Op::Gt => push_size_changes(measure, causes),
    }
}

fn push_bound_causes(bound: &Bound, causes: &mut Vec<Cause>) -> Result<(), NoMemory>
    ensures { OnOk result (causes.new.items ≡ causes.old.items ++ said.bound_causes bound.now) }
{
    match bound {
        Bound::Num(_) => Ok(()),
        Bound::Size(measure) => push_size_changes(measure, causes),
    }
}

// That what is to be there goes, or what isn't to be there comes.
fn presence_cause(negated: bool, symbol: Symbol, var: Var) -> Cause
    ensures { result ≡ said.presence_cause negated symbol var }
{
    let at = Some(var);
    if negated {
        Cause {
            reason: Reason::Gain(symbol),
            at,
        }
    } else {
        Cause {
            reason: Reason::Loss(symbol),
            at,
        }
    }
}

// That a value comes which doesn't meet the bound, or the bound changes.
fn push_value_causes(
    var: Var,
    rel: u32,
    bound: &Bound,
    causes: &mut Vec<Cause>,
) -> Result<(), NoMemory>
    ensures { OnOk result (causes.new.items ≡ causes.old.items
        ++ said.value_causes var rel bound.now) }
{
    causes.push(presence_cause(true, Symbol::Rel(rel), var))?;
    push_bound_causes(bound, causes)
}

// Puts what may turn the literal false behind the causes.
fn push_literal_causes(literal: &Literal, causes: &mut Vec<Cause>) -> Result<(), NoMemory>
    ensures { OnOk result (causes.new.items ≡ causes.old.items ++ said.literal_causes literal.now) }
{
    match &literal.atom {
        Atom::Member(var, set) => {
            causes.push(presence_cause(literal.negated, Symbol::Set(*set), *var))?;
            Ok(())
        }
        Atom::Pair(var, _, rel) => {
            causes.push(presence_cause(literal.negated, Symbol::Rel(*rel), *var))?;
            Ok(())
        }
        Atom::Count(measure, op, _) => push_size_causes(measure, *op, causes),
        Atom::Value(var, rel, _, bound) => push_value_causes(*var, *rel, bound, causes),
    }
}

/// What may turn the literal false, in order.
pub fn literal_causes(
    alloc: Global,
    spec: &Spec,
    quant: &Quant,
    literal: &Literal,
) -> Result<Vec<Cause>, NoMemory>
    requires literal { IsTypedLiteral spec.now quant.now literal.now }
    ensures causes { IfOk result (λ causes. causes.items ≡ said.literal_causes literal.now) }
    ensures declared { IfOk result (λ causes. All (IsOfDeclared spec.now.base) causes.items) }
{
    let mut causes = Vec::new(alloc);
    push_literal_causes(literal, &mut causes)?;
    Ok(causes)
}

// That there are more bindings.
fn push_quantifier_causes(quant: &Quant, causes: &mut Vec<Cause>) -> Result<(), NoMemory>
    ensures { OnOk result (causes.new.items ≡ causes.old.items ++ said.quantifier_causes quant.now) }
{
    let reason = match *quant {
        Quant::Once => return Ok(()),
        Quant::Each(set) => Reason::Gain(Symbol::Set(set)),
        Quant::Pairs(rel) => Reason::Gain(Symbol::Rel(rel)),
    };
    causes.push(Cause { reason, at: None })?;
    Ok(())
}

fn push_conj_causes(conj: &Conj, causes: &mut Vec<Cause>) -> Result<(), NoMemory>
    ensures { OnOk result (causes.new.items
        ≡ causes.old.items ++ flat_map said.literal_causes conj.now.literals) }
{
    for literal in conj.literals.items() {
        push_literal_causes(literal, causes)?;
    }
    Ok(())
}

fn push_conjs_causes(conjs: &[Conj], causes: &mut Vec<Cause>) -> Result<(), NoMemory>
    ensures { OnOk result (causes.new.items
        ≡ causes.old.items ++ flat_map (λ conj. flat_map said.literal_causes conj.literals) conjs.now) }
{
    for conj in conjs {
        push_conj_causes(conj, causes)?;
    }
    Ok(())
}

// No equal cause is among these.
fn is_new(causes: &[Cause], cause: &Cause) -> bool
    ensures { MatchBool result (IsIn cause.now causes.now → ⊥) (IsIn cause.now causes.now) }
{
    !causes.contains(cause)
}

// Each cause once, where it first stands.
fn each_once(alloc: Global, causes: &[Cause]) -> Result<Vec<Cause>, NoMemory>
    ensures { IfOk result (λ once. AreOnce [] causes.now once.items) }
{
    let mut once = Vec::new(alloc);
    for cause in causes {
        if is_new(&once, cause) {
            once.push(*cause)?;
        }
    }
    Ok(once)
}

/// What may break the constraint by updates of others, in order, each cause once.
pub fn constraint_causes(
    alloc: Global,
    spec: &Spec,
    constraint: &Constraint,
) -> Result<Vec<Cause>, NoMemory>
    requires constraint { IsTypedConstraint spec.now constraint.now }
    ensures once { IfOk result (λ causes. AreOnce []
        (said.constraint_causes false constraint.now) causes.items) }
    ensures declared { IfOk result (λ causes. All (IsOfDeclared spec.now.base) causes.items) }
{
    let mut causes = Vec::new(alloc);
    push_quantifier_causes(&constraint.quant, &mut causes)?;
    push_conjs_causes(constraint.conjs.items(), &mut causes)?;
    each_once(alloc, &causes)
}
