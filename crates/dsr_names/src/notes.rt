// Notes of names that stand for nothing.
ghost use Rattle.std.specs.Prelude.{◌≡◌, not};
ghost use Rattle.dsr_tree.specs.declared.faults.Condition.TheVariants as conditions;
ghost use Rattle.dsr_language_theory.specs.Faults.{when};
ghost use Rattle.dsr_names.specs.Telling.{Finds};
ghost use Rattle.dsr_language_theory.specs.Known.{is_nil, unknown};

use crate::telling::Told;
use dsr_tree::{Condition, PlacedName};

/// Takes note of a name that stands for nothing, and says whether it stands for something.
pub fn note_name(told: &mut Told, is_known: bool, name: &PlacedName) -> bool
    ensures told { Finds (when (not is_known) conditions.UnknownName name.now.place) told.old.fault
        told.new.fault }
    ensures known { result ≡ is_nil (when (not is_known) conditions.UnknownName name.now.place) }
{
    told.note_if(!is_known, Condition::UnknownName, name.place);
    is_known
}

/// The same of what a name was found to stand for.
pub fn note_found(told: &mut Told, number: Option<u32>, name: &PlacedName) -> bool
    ensures told { Finds (unknown number name.now) told.old.fault told.new.fault }
    ensures known { result ≡ is_nil (unknown number name.now) }
{
    note_name(told, number.is_some(), name)
}
