// Conjunctions of a normal form.
ghost use Rattle.std.specs.Prelude.{◌≡◌, [], ◌∷◌, ◌++◌, IfOk, map};
ghost use Rattle.dsr_ir.specs.Formulas.{formula_shape, in_row};
ghost use Rattle.dsr_language_theory.specs.NormalForms.{distributed, any_row, every_row, joined};
ghost use Rattle.dsr_normal.specs.Literals.{literals_of};

use crate::sizes::every_size;
use dsr_ir::{Conj, FormulaNode, Literal, NoMemory, Seq};
use std::alloc::Global;

// The conjunctions of a formula, at least one of which is to hold.
#[cycle(building)]
pub(crate) fn formula_conjs(
    alloc: Global,
    negated: bool,
    given: bool,
    node: &FormulaNode,
) -> Result<Vec<Conj>, NoMemory>
    ensures { IfOk result (λ conjs. literals_of conjs.items
        ≡ distributed negated given (formula_shape node.now)) }
{
    match node {
        FormulaNode::Any(parts) => {
            if negated {
                every_conjs(alloc, negated, given, parts)
            } else {
                any_conjs(alloc, negated, given, parts)
            }
        }
        FormulaNode::Every(parts) => {
            if negated {
                any_conjs(alloc, negated, given, parts)
            } else {
                every_conjs(alloc, negated, given, parts)
            }
        }
        FormulaNode::Not(part) => formula_conjs(alloc, !negated, given, part),
        FormulaNode::Given(part) => formula_conjs(alloc, negated, true, part),
        FormulaNode::Leaf(atom) => literal_conjs(
            alloc,
            Literal {
                atom: *atom,
                negated,
                given,
            },
        ),
    }
}

// The conjunctions where one of the parts is to hold.
#[cycle(building)]
fn any_conjs(
    alloc: Global,
    negated: bool,
    given: bool,
    parts: &[FormulaNode],
) -> Result<Vec<Conj>, NoMemory>
    ensures { IfOk result (λ conjs. literals_of conjs.items
        ≡ any_row negated given (in_row (map formula_shape parts.now))) }
{
    let mut conjs = Vec::new(alloc);
    for part in parts {
        let mut more = formula_conjs(alloc, negated, given, part)?;
        conjs.append(&mut more)?;
    }
    Ok(conjs)
}

// The conjunctions where every part is to hold. None is made where one of the parts has none.
#[cycle(building)]
fn every_conjs(
    alloc: Global,
    negated: bool,
    given: bool,
    parts: &[FormulaNode],
) -> Result<Vec<Conj>, NoMemory>
    ensures { IfOk result (λ conjs. literals_of conjs.items
        ≡ every_row negated given (in_row (map formula_shape parts.now))) }
{
    let size = every_size(negated, given, parts);
    if size.conjunctions == 0 {
        return Ok(Vec::new(alloc));
    }
    let mut conjs = empty_conjs(alloc)?;
    for part in parts {
        let right = formula_conjs(alloc, negated, given, part)?;
        conjs = joined_conjs(alloc, &conjs, &right)?;
    }
    Ok(conjs)
}

// The one conjunction of this literal.
fn literal_conjs(alloc: Global, literal: Literal) -> Result<Vec<Conj>, NoMemory>
    ensures { IfOk result (λ conjs. literals_of conjs.items ≡ (literal ∷ []) ∷ []) }
{
    let mut literals = Vec::new(alloc);
    literals.push(literal)?;
    one_conj(alloc, literals)
}

// The one conjunction of no literals, which holds.
fn empty_conjs(alloc: Global) -> Result<Vec<Conj>, NoMemory>
    ensures { IfOk result (λ conjs. literals_of conjs.items ≡ [] ∷ []) }
{
    one_conj(alloc, Vec::new(alloc))
}

// The one conjunction of these literals.
fn one_conj(alloc: Global, literals: Vec<Literal>) -> Result<Vec<Conj>, NoMemory>
    ensures { IfOk result (λ conjs. literals_of conjs.items ≡ literals.items ∷ []) }
{
    let mut conjs = Vec::new(alloc);
    let literals = Seq::new(literals);
    conjs.push(Conj { literals })?;
    Ok(conjs)
}

// The literals of both conjunctions.
fn joined_conj(alloc: Global, left: &Conj, right: &Conj) -> Result<Conj, NoMemory>
    ensures { IfOk result (λ conj. conj.literals ≡ left.now.literals ++ right.now.literals) }
{
    let mut literals = Vec::new(alloc);
    literals.extend_from_slice(left.literals.items())?;
    literals.extend_from_slice(right.literals.items())?;
    let literals = Seq::new(literals);
    Ok(Conj { literals })
}

// This conjunction with each of those on the right.
fn prefixed(alloc: Global, left: &Conj, right: &[Conj]) -> Result<Vec<Conj>, NoMemory>
    ensures { IfOk result (λ conjs. literals_of conjs.items
        ≡ map (λ d. left.now.literals ++ d) (literals_of right.now)) }
{
    let mut conjs = Vec::new(alloc);
    for other in right {
        let conj = joined_conj(alloc, left, other)?;
        conjs.push(conj)?;
    }
    Ok(conjs)
}

// Each conjunction on the left with each on the right.
fn joined_conjs(alloc: Global, left: &[Conj], right: &[Conj]) -> Result<Vec<Conj>, NoMemory>
    ensures { IfOk result (λ conjs. literals_of conjs.items
        ≡ joined (literals_of left.now) (literals_of right.now)) }
{
    let mut conjs = Vec::new(alloc);
    for first in left {
        let mut more = prefixed(alloc, first, right)?;
        conjs.append(&mut more)?;
    }
    Ok(conjs)
}
