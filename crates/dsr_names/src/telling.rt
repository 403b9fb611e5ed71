// The fault that is to be told, among those that were found so far.
ghost use Rattle.std.specs.Prelude.{◌≡◌, is_none, List, [], None, IfSome};
ghost use Rattle.dsr_tree.specs.declared.faults.Condition.TheVariants as conditions;
ghost use Rattle.dsr_language_theory.specs.Faults.{when};
ghost use Rattle.dsr_tree.specs.declared.faults.Fault.{Fault};
ghost use Rattle.dsr_names.specs.FaultsTold.{Tells};
ghost use Rattle.dsr_names.specs.Telling.{Finds, told_of};

use crate::refusals::SpecFault;
use dsr_tree::{Condition, Fault, PlacedName};

/// The fault with the least place of those that were found, and of those the least condition.
#[derive(Drop)]
pub struct Told {
    pub fault: Option<Fault>,
}

impl Told {
    /// Takes note of a condition where it holds.
    pub fn note_if(&mut self, holds: bool, condition: Condition, place: u64)
        ensures { Finds (when holds condition place) self.old.fault self.new.fault }
    {
        if holds {
            self.note(Fault { place, condition });
        }
    }

    /// Takes note of a name that stands for nothing.
    pub fn note_unknown(&mut self, number: Option<u32>, name: &PlacedName)
        ensures { Finds (when (is_none number) conditions.UnknownName name.now.place) self.old.fault
            self.new.fault }
    {
        self.note_if(number.is_none(), Condition::UnknownName, name.place);
    }

    /// The refusal that tells the fault, where one was found.
    pub fn refusal(&self) -> Option<SpecFault>
        ensures told { (faults : List Fault) → Finds faults None self.now.fault → IfSome result (Tells faults) }
        ensures none { (faults : List Fault) → Finds faults None self.now.fault → result ≡ None → faults ≡ [] }
    {
        match self.fault {
            Some(fault) => Some(SpecFault::At {
                kind: fault.condition.kind(),
                place: fault.place,
            }),
            None => None,
        }
    }

    fn note(&mut self, found: Fault)
        ensures { self.new.fault ≡ told_of self.old.fault found }
    {
        match self.fault {
            Some(least) if !found.is_before(least) => (),
            _ => self.fault = Some(found),
        }
    }
}
