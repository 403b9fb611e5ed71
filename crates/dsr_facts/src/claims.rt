// The fact that one constraint gives.
ghost use Rattle.std.specs.Prelude.{◌≡◌, false, option_map};
ghost use Rattle.dsr_ir.specs.declared.constraints.Atom.TheVariants.{Count};
ghost use Rattle.dsr_ir.specs.declared.constraints.Quant.TheVariants.{Each, Pairs};
ghost use Rattle.dsr_ir.specs.declared.declarations.Spec.{Spec};
ghost use Rattle.dsr_update_theory.specs.Facts as said;
ghost use Rattle.dsr_facts.specs.Claims.{claimed};

use dsr_ir::{Atom, Constraint, Literal, Measure, Op, Quant, Spec, Var};

// What one constraint says of sets or relations, by their numbers.
#[derive(Clone, Copy)]
pub(crate) enum Claim {
    // Each record has one source under the relation at most.
    Injective(u32),
    // The sets have no member in common.
    Exclusive(u32, u32),
    // What has a source under the first relation has none under the second.
    Apart(u32, u32),
}

// Whether a set is the complement of this one.
fn is_complement(spec: &Spec, set: u32, base: u32) -> bool
    ensures { result ≡ said.is_complement spec.now set base }
{
    match spec.base.sets.items().get(set as usize) {
        Some(declared) => match declared.except {
            Some(except) => base == except,
            None => false,
        },
        None => false,
    }
}

// That no member of one set is in the other. Of a set and its complement nothing needs to be said.
fn exclusive_claim(spec: &Spec, a: u32, b: u32) -> Option<Claim>
    ensures { option_map claimed result ≡ said.exclusive_fact spec.now a b }
{
    if a == b || is_complement(spec, a, b) || is_complement(spec, b, a) {
        None
    } else {
        Some(Claim::Exclusive(a, b))
    }
}

// What an upper bound says of the sources that the targets of one relation have under another one.
fn bounded_claim(rel: u32, counted: u32, most: u64) -> Option<Claim>
    ensures { option_map claimed result ≡ said.bounded_fact rel counted most }
{
    if rel == counted {
        if most == 1 {
            Some(Claim::Injective(counted))
        } else {
            None
        }
    } else if most == 0 {
        Some(Claim::Apart(rel, counted))
    } else {
        None
    }
}

// What a literal says of each member of a set.
fn claim_of_members(spec: &Spec, set: u32, atom: &Atom, negated: bool) -> Option<Claim>
    ensures { option_map claimed result ≡ said.fact_by spec.now (Each set) atom.now negated }
{
    let Atom::Member(var, other) = *atom else {
        return None;
    };
    match var {
        Var::First if negated => exclusive_claim(spec, set, other),
        _ => None,
    }
}

// What a bound on a size says of each pair of a relation.
fn claim_of_size(rel: u32, measure: Measure, op: Op, most: u64) -> Option<Claim>
    ensures { (spec : Spec) → option_map claimed result
        ≡ said.fact_by spec (Pairs rel) (Count measure op most) false }
{
    let Measure::Into(counted, var) = measure else {
        return None;
    };
    match (var, op) {
        (Var::Second, Op::Le) => bounded_claim(rel, counted, most),
        _ => None,
    }
}

// What a literal says of each pair of a relation.
fn claim_of_pairs(rel: u32, atom: &Atom, negated: bool) -> Option<Claim>
    ensures { (spec : Spec) → option_map claimed result
        ≡ said.fact_by spec (Pairs rel) atom.now negated }
{
    match *atom {
        Atom::Count(measure, op, most) if !negated => claim_of_size(rel, measure, op, most),
        _ => None,
    }
}

// The fact of a constraint whose formula is this literal.
fn claim_by(spec: &Spec, quant: Quant, literal: &Literal) -> Option<Claim>
    ensures { option_map claimed result
        ≡ said.fact_by spec.now quant literal.now.atom literal.now.negated }
{
    match quant {
        Quant::Once => None,
        Quant::Each(set) => claim_of_members(spec, set, &literal.atom, literal.negated),
        Quant::Pairs(rel) => claim_of_pairs(rel, &literal.atom, literal.negated),
    }
}

// Only a formula of one literal gives a fact.
fn claim_of_literals(spec: &Spec, quant: Quant, literals: &[Literal]) -> Option<Claim>
    ensures { option_map claimed result ≡ said.fact_of_literals spec.now quant literals.now }
{
    match literals {
        [literal] => claim_by(spec, quant, literal),
        _ => None,
    }
}

// The fact that a constraint gives.
pub(crate) fn claim_of(spec: &Spec, constraint: &Constraint) -> Option<Claim>
    ensures { option_map claimed result ≡ said.fact_of spec.now constraint.now }
{
    match constraint.conjs.items() {
        [conj] => claim_of_literals(spec, constraint.quant, conj.literals.items()),
        _ => None,
    }
}
