// The updates that are tried for a literal of a constraint, before any is left out.
ghost use Rattle.std.specs.Prelude.{◌≡◌, IfOk};
ghost use Rattle.dsr_meaning.specs.Typed.{IsTyped};
ghost use Rattle.dsr_update_theory.specs.Templates.{AreRawOf, TellsKnown};
ghost use Rattle.dsr_goal.specs.Knowing.{known_by};
ghost use Rattle.dsr_goal.specs.Raws.{AreRawAt};

use crate::known::Known;
use crate::literals::of_literal;
use dsr_ir::{Constraint, NoMemory, Spec, Template};
use dsr_schema::literal_at;
use std::alloc::Global;

/// The updates that are tried for the literal with these numbers of the constraint, of whose
/// variables this is known; none where there is no such literal.
pub fn raw_of(
    alloc: Global,
    spec: &Spec,
    known: &Known,
    constraint: &Constraint,
    conj: u32,
    literal: u32,
) -> Result<Vec<Template>, NoMemory>
    requires typed { IsTyped spec.now }
    requires tells { TellsKnown spec.now constraint.now.quant (known_by known.now) }
    ensures { IfOk result (λ ts. AreRawOf spec.now constraint.now conj literal ts.items) }
{
    match literal_at(constraint, conj, literal) {
        Some(literal) => of_literal(alloc, spec, known, &constraint.quant, &literal),
        None => Ok(Vec::new(alloc)),
    }
}

/// The updates that are tried for the literal with these numbers; none where there is no such
/// literal.
pub fn raw(
    alloc: Global,
    spec: &Spec,
    constraint: u32,
    conj: u32,
    literal: u32,
) -> Result<Vec<Template>, NoMemory>
    requires typed { IsTyped spec.now }
    ensures { IfOk result (λ ts. AreRawAt spec.now constraint conj literal ts.items) }
{
    let Some(constraint) = spec.constraints.items().get(constraint as usize) else {
        return Ok(Vec::new(alloc));
    };
    let known = Known::new(spec, &constraint.quant);
    raw_of(alloc, spec, &known, constraint, conj, literal)
}
