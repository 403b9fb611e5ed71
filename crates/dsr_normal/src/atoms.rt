// The different atoms of a formula.
ghost use Rattle.std.specs.Prelude.{◌≡◌, [], ◌∷◌, IfOk, map};
ghost use Rattle.dsr_ir.specs.Formulas.{formula_shape, in_row};
ghost use Rattle.dsr_language_theory.specs.NormalForms.{is_same_atom, atoms_of, row_atoms, has_atom, has_many_atoms};

use dsr_ir::{Atom, FormulaNode, NoMemory};
use std::alloc::Global;

// The most different atoms of a formula.
const MOST_ATOMS: usize = 8;

// The atoms of a formula, in order, each as often as it stands there.
#[cycle(atoms)]
fn formula_atoms(alloc: Global, node: &FormulaNode) -> Result<Vec<Atom>, NoMemory>
    ensures { IfOk result (λ atoms. atoms.items ≡ atoms_of (formula_shape node.now)) }
{
    match node {
        FormulaNode::Any(parts) => parts_atoms(alloc, parts),
        FormulaNode::Every(parts) => parts_atoms(alloc, parts),
        FormulaNode::Not(part) => formula_atoms(alloc, part),
        FormulaNode::Given(part) => formula_atoms(alloc, part),
        FormulaNode::Leaf(atom) => one_atom(alloc, *atom),
    }
}

// The atoms of these formulas, in order.
#[cycle(atoms)]
fn parts_atoms(alloc: Global, parts: &[FormulaNode]) -> Result<Vec<Atom>, NoMemory>
    ensures { IfOk result (λ atoms. atoms.items ≡ row_atoms (in_row (map formula_shape parts.now))) }
{
    let mut atoms = Vec::new(alloc);
    for part in parts {
        let mut more = formula_atoms(alloc, part)?;
        atoms.append(&mut more)?;
    }
    Ok(atoms)
}

// This atom alone.
fn one_atom(alloc: Global, atom: Atom) -> Result<Vec<Atom>, NoMemory>
    ensures { IfOk result (λ atoms. atoms.items ≡ atom ∷ []) }
{
    let mut atoms = Vec::new(alloc);
    atoms.push(atom)?;
    Ok(atoms)
}

// Whether the atoms are the same.
fn is_same(left: Atom, right: Atom) -> bool
    ensures { result ≡ is_same_atom left right }
{
    left == right
}

// Whether the atom is among these.
fn is_among(atoms: &[Atom], atom: Atom) -> bool
    ensures { result ≡ has_atom atoms.now atom }
{
    for other in atoms {
        if is_same(*other, atom) {
            return true;
        }
    }
    false
}

// Whether more than 8 of these atoms are different.
fn are_many(alloc: Global, atoms: &[Atom]) -> Result<bool, NoMemory>
    ensures { IfOk result (λ many. many ≡ has_many_atoms atoms.now) }
{
    let mut seen = Vec::new(alloc);
    for atom in atoms {
        if !is_among(&seen, *atom) {
            if seen.len() == MOST_ATOMS {
                return Ok(true);
            }
            seen.push(*atom)?;
        }
    }
    Ok(false)
}

// Whether more than 8 of the formula's atoms are different.
pub(crate) fn has_many(alloc: Global, node: &FormulaNode) -> Result<bool, NoMemory>
    ensures { IfOk result (λ many. many ≡ has_many_atoms (atoms_of (formula_shape node.now))) }
{
    let atoms = formula_atoms(alloc, node)?;
    are_many(alloc, &atoms)
}
