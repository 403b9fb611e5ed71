// Taking note of faults.
ghost use Rattle.std.specs.Prelude.{List, None};
ghost use Rattle.dsr_tree.specs.declared.faults.Fault.{Fault};
ghost use Rattle.dsr_names.specs.Telling.{Finds};

use dsr_names::Told;

/// Takes note of the fault that is told of a part.
pub fn note_part(told: &mut Told, part: &Told)
    ensures { (faults : List Fault) → Finds faults None part.now.fault →
        Finds faults told.old.fault told.new.fault }
{
    if let Some(fault) = part.fault {
        told.note_if(true, fault.condition, fault.place);
    }
}
