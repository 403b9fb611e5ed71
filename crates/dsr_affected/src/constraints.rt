// Which constraints some fields affect.
ghost use Rattle.std.specs.Prelude.{◌≡◌, IfOk};
ghost use Rattle.dsr_affected.specs.Marking as said;
ghost use Rattle.dsr_affected.specs.Marking.{AreAffected, has_mark};
ghost use Rattle.dsr_affected_laws.specs.Affected.{atom_symbols, bound_symbols, quant_symbols};
ghost use Rattle.dsr_meaning.specs.Lists.{any_of};
ghost use Rattle.dsr_meaning.specs.Typed.{IsTyped};
ghost use Rattle.dsr_update_theory.specs.Templates.{counted_symbol};

use crate::marks::Marks;
use crate::symbols::marks_of;
use dsr_ir::{Atom, Bound, Conj, Constraint, FieldRef, Measure, NoMemory, Quant, Spec, Symbol};
use std::alloc::Global;

// Whether the symbol of what is bound is marked.
fn is_quant_marked(marks: &Marks, quant: Quant) -> bool
    ensures { result ≡ any_of (has_mark marks.now) (quant_symbols quant) }
{
    match quant {
        Quant::Once => false,
        Quant::Each(set) => marks.has(Symbol::Set(set)),
        Quant::Pairs(rel) => marks.has(Symbol::Rel(rel)),
    }
}

// Whether the symbol of what is counted is marked.
fn is_measure_marked(marks: &Marks, measure: Measure) -> bool
    ensures { result ≡ has_mark marks.now (counted_symbol measure) }
{
    match measure {
        Measure::Whole(set) => marks.has(Symbol::Set(set)),
        Measure::Out(_, rel) | Measure::Into(rel, _) => marks.has(Symbol::Rel(rel)),
    }
}

// Whether a symbol is marked of what a value is compared with.
fn is_bound_marked(marks: &Marks, bound: Bound) -> bool
    ensures { result ≡ any_of (has_mark marks.now) (bound_symbols bound) }
{
    match bound {
        Bound::Num(_) => false,
        Bound::Size(measure) => is_measure_marked(marks, measure),
    }
}

// Whether a symbol of the atom is marked.
fn is_atom_marked(marks: &Marks, atom: Atom) -> bool
    ensures { result ≡ any_of (has_mark marks.now) (atom_symbols atom) }
{
    match atom {
        Atom::Member(_, set) => marks.has(Symbol::Set(set)),
        Atom::Pair(_, _, rel) => marks.has(Symbol::Rel(rel)),
        Atom::Count(measure, _, _) => is_measure_marked(marks, measure),
        Atom::Value(_, rel, _, bound) => {
            marks.has(Symbol::Rel(rel)) || is_bound_marked(marks, bound)
        }
    }
}

// Whether a symbol of a literal is marked.
fn is_conj_marked(marks: &Marks, conj: &Conj) -> bool
    ensures { result ≡ said.is_conj_marked marks.now conj.now }
{
    for literal in conj.literals.items() {
        if is_atom_marked(marks, literal.atom) {
            return true;
        }
    }
    false
}

// Whether a symbol of the constraint is marked.
fn is_marked(marks: &Marks, constraint: &Constraint) -> bool
    ensures { result ≡ said.is_constraint_marked marks.now constraint.now }
{
    if is_quant_marked(marks, constraint.quant) {
        return true;
    }
    for conj in constraint.conjs.items() {
        if is_conj_marked(marks, conj) {
            return true;
        }
    }
    false
}

/// The numbers of the constraints that a write of the fields may bear on, in order: those with a
/// symbol that is affected, be it the quantifier's or one of a literal.
pub fn affected_constraints(
    alloc: Global,
    spec: &Spec,
    fields: &[FieldRef],
) -> Result<Vec<u32>, NoMemory>
    requires typed { IsTyped spec.now }
    ensures { IfOk result (λ order. AreAffected spec.now fields.now order.items) }
{
    let marks = marks_of(spec, fields);
    let mut order = Vec::new(alloc);
    for (number, constraint) in spec.constraints.items().iter().enumerate() {
        if is_marked(&marks, constraint) {
            order.push(number as u32)?;
        }
    }
    Ok(order)
}
