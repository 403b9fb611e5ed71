// Typed constraints, whose complements give way to their bases.
ghost use Rattle.std.specs.Prelude.{◌≡◌, map, IfOk};
ghost use Rattle.dsr_language_theory.specs.TypedConstraints.{base_of, over_base, without_complement, without_complements, typed_quant};
ghost use Rattle.dsr_constraint.specs.Scoped.{scope_told};

use crate::scopes::Scope;
use dsr_ir::{Atom, Conj, Literal, NoMemory, Quant, Seq, Structures, Var};
use std::alloc::Global;

// The set of which a set is the complement.
fn base_of(base: &Structures, set: u32) -> Option<u32>
    ensures { result ≡ base_of base.now set }
{
    match base.sets.items().get(set as usize) {
        Some(set) => set.except,
        None => None,
    }
}

// A member of a complement is no member of its base.
fn over_base(literal: Literal, var: Var, set: Option<u32>) -> Literal
    ensures { result ≡ over_base literal var set }
{
    match set {
        Some(set) => Literal {
            atom: Atom::Member(var, set),
            negated: !literal.negated,
            given: literal.given,
        },
        None => literal,
    }
}

// A literal, with the base of a complement in its place.
fn without_complement(base: &Structures, literal: Literal) -> Literal
    ensures { result ≡ without_complement base.now literal }
{
    match literal.atom {
        Atom::Member(var, set) => over_base(literal, var, base_of(base, set)),
        _ => literal,
    }
}

fn without_complements(alloc: Global, base: &Structures, conj: &Conj) -> Result<Conj, NoMemory>
    ensures { IfOk result (λ c. c ≡ without_complements base.now conj.now) }
{
    let mut literals = Vec::new(alloc);
    for literal in conj.literals.items() {
        literals.push(without_complement(base, *literal))?;
    }
    Ok(Conj {
        literals: Seq::new(literals),
    })
}

/// Conjunctions, in which each complement gives way to its base.
pub fn all_without_complements(
    alloc: Global,
    base: &Structures,
    conjs: &[Conj],
) -> Result<Vec<Conj>, NoMemory>
    ensures { IfOk result (λ cs. cs.items ≡ map (without_complements base.now) conjs.now) }
{
    let mut typed = Vec::new(alloc);
    for conj in conjs {
        let entry = without_complements(alloc, base, conj)?;
        typed.push(entry)?;
    }
    Ok(typed)
}

impl Scope<'_> {
    /// What a constraint's variables run over.
    pub fn typed_quant(&self) -> Quant
        ensures { result ≡ typed_quant (scope_told self.now) }
    {
        self.quant.unwrap_or(Quant::Once)
    }
}
