// The different atoms of a constraint.
ghost use Rattle.std.specs.Prelude.{◌≡◌, IfOk, MatchBool, OnOk};
ghost use Rattle.dsr_placement.specs.Atoms as said;
ghost use Rattle.dsr_placement.specs.Atoms.{HasAtoms, HasAtomsOf, Keeps};
ghost use Rattle.dsr_meaning.specs.Counting.{IsIn};

use dsr_ir::{Atom, Conj, Constraint, NoMemory};
use std::alloc::Global;

/// The first place of the atom among these atoms; how many they are where it is none of them.
pub fn place_of(atoms: &[Atom], atom: &Atom) -> usize
    ensures { result ≡ said.place_of atoms.now atom.now }
{
    for (place, other) in atoms.iter().enumerate() {
        if *other == *atom {
            return place;
        }
    }
    atoms.len()
}

// Whether the atom is one of these.
fn is_among(atoms: &[Atom], atom: &Atom) -> bool
    ensures { MatchBool result (IsIn atom.now atoms.now) (Unit {0}) }
{
    place_of(atoms, atom) < atoms.len()
}

// Puts the atom behind the others, where it is none of them.
fn add_atom(atoms: &mut Vec<Atom>, atom: Atom) -> Result<(), NoMemory>
    ensures keeps { OnOk result (Keeps atoms.old.items atoms.new.items) }
    ensures there { OnOk result (IsIn atom atoms.new.items) }
{
    if is_among(atoms, &atom) {
        return Ok(());
    }
    atoms.push(atom)?;
    Ok(())
}

fn add_conj(atoms: &mut Vec<Atom>, conj: &Conj) -> Result<(), NoMemory>
    ensures keeps { OnOk result (Keeps atoms.old.items atoms.new.items) }
    ensures there { OnOk result (HasAtoms atoms.new.items conj.now) }
{
    for literal in conj.literals.items() {
        add_atom(atoms, literal.atom)?;
    }
    Ok(())
}

/// Each atom of the constraint once.
pub fn atoms_of(alloc: Global, constraint: &Constraint) -> Result<Vec<Atom>, NoMemory>
    ensures { IfOk result (λ atoms. HasAtomsOf atoms.items constraint.now) }
{
    let mut atoms = Vec::new(alloc);
    for conj in constraint.conjs.items() {
        add_conj(&mut atoms, conj)?;
    }
    Ok(atoms)
}
