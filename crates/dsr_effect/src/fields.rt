// Structures that are related, and the pools of records.
ghost use Rattle.std.specs.Prelude.{◌≡◌, ◌<◌, ℕ, false, length, slice_index_or};
ghost use Rattle.dsr_effect.specs.Told.{is_foreign_structure};
ghost use Rattle.dsr_meaning.specs.Typed.{AreTyped};
ghost use Rattle.dsr_update_theory.specs.Changes as said;

use dsr_ir::{Place, Quant, Spec, Structures, Write};
use dsr_layout::premise_pool;
use dsr_schema::{descends, pool_of_var};

/// How many structures a specification may have.
pub const MOST_STRUCTURES: usize = 64;

/// Whether one of the two structures descends from the other, or they are the same.
pub fn are_related(structures: &Structures, a: u32, b: u32) -> bool
    requires typed { AreTyped structures.now }
    ensures { result ≡ said.are_related structures.now a b }
{
    descends(structures, a, b) || descends(structures, b, a)
}

/// Whether fields of the structure may share bytes with one that is written.
pub fn is_foreign(structures: &Structures, writes: &[Write], structure: u32) -> bool
    requires typed { AreTyped structures.now }
    ensures { result ≡ is_foreign_structure structures.now writes.now structure }
{
    for write in writes {
        if !are_related(structures, structure, write.path.field.structure) {
            return true;
        }
    }
    false
}

/// For each declared structure whether its fields may share bytes with one that is written.
pub fn foreign_structures(structures: &Structures, writes: &[Write]) -> [bool; MOST_STRUCTURES]
    requires typed { AreTyped structures.now }
    ensures { (structure : ℕ) → structure < length structures.now.structures
        → slice_index_or result structure false
        ≡ is_foreign_structure structures.now writes.now structure }
{
    let mut marks = [false; MOST_STRUCTURES];
    for structure in 0..structures.structures.items().len() as u32 {
        marks[structure as usize] = is_foreign(structures, writes, structure);
    }
    marks
}

/// The pool of the record at a place, 0 for the head; the rule is that of the update.
pub fn place_pool(spec: &Spec, quant: &Quant, rule: u32, place: Place) -> Option<u32>
    ensures { result ≡ said.place_pool spec.now quant.now rule place }
{
    match place {
        Place::Head => Some(0),
        Place::Of(var) => pool_of_var(&spec.base, quant, var),
        Place::Deriver => {
            let rule = spec.rules.items().get(rule as usize)?;
            Some(premise_pool(spec, rule))
        }
    }
}
