// Whether the tests of some conjunction are passed, whatever is true.
ghost use Rattle.std.specs.Prelude.{◌≡◌, Decides, IfOk, length, take};
ghost use Rattle.dsr_placement.specs.Atoms as said;
ghost use Rattle.dsr_placement.specs.Atoms.{CoversFrom};
ghost use Rattle.dsr_plan_theory.specs.Plans.{Covers};

use crate::atoms::atoms_of;
use crate::truths::World;
use dsr_ir::{Atom, Constraint, NoMemory, Seq};
use std::alloc::Global;

// Whether the tests of some conjunction are passed, whatever values the atoms from the place on
// have.
fn covers_from(
    atoms: &[Atom],
    constraint: &Constraint,
    tests: &[Seq<bool>],
    truths: &mut [bool],
    place: usize,
) -> bool
    ensures length { length truths.new ≡ length truths.old }
    ensures front { take place truths.new ≡ take place truths.old }
    ensures covers { Decides result (CoversFrom atoms.now constraint.now tests.now truths.old place) }
{
    if place >= truths.len() {
        let world = World { atoms, truths };
        return world.some_passes(constraint, tests);
    }
    truths[place] = true;
    if !covers_from(atoms, constraint, tests, truths, place + 1) {
        return false;
    }
    truths[place] = false;
    covers_from(atoms, constraint, tests, truths, place + 1)
}

/// Whether some conjunction passes its tests, whatever is true; a mark tells of each literal
/// whether it is tested. It goes through the truth values of the different atoms, of which a
/// constraint has eight at most, and not over literals, which conjunctions repeat: 256 looks at
/// most.
pub fn covers(alloc: Global, constraint: &Constraint, tests: &[Seq<bool>]) -> Result<bool, NoMemory>
    ensures { IfOk result (λ covered. Decides covered (Covers constraint.now (said.IsTested tests.now))) }
{
    let atoms = atoms_of(alloc, constraint)?;
    let mut truths = vec![in alloc; false; atoms.len()]?;
    Ok(covers_from(&atoms, constraint, tests, &mut truths, 0))
}
