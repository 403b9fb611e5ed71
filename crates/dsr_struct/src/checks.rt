// The faults of all declarations before the rules.
ghost use Rattle.dsr_language_theory.specs.Declarations.{head_faults, faults_with};
ghost use Rattle.std.specs.Prelude.{◌≡◌, None, codes};
ghost use Rattle.dsr_struct.specs.Known.{known_of};
ghost use Rattle.dsr_names.specs.Telling.{Finds};

use crate::lookups::Names;
use dsr_ir::Name;
use dsr_names::Told;
use dsr_tree::{Condition, Fault};

impl Names<'_> {
    // No structure `Head`; the name is given.
    fn check_head(&self, told: &mut Told, head: &Name)
        requires { head.now ≡ codes "Head" }
        ensures { Finds (head_faults (known_of self.now)) told.old.fault told.new.fault }
    {
        let found = self.structure(head);
        told.note_if(found.is_none(), Condition::UnknownName, 0);
    }

    /// The fault that is told, of all that hold.
    pub fn check(&self, head: &Name) -> Option<Fault>
        requires { head.now ≡ codes "Head" }
        ensures { Finds (faults_with (known_of self.now)) None result }
    {
        let mut told = Told { fault: None };
        let structures = self.tree.structures.items();
        let asked = structures.len().min(65);
        self.check_head(&mut told, head);
        self.check_structures(&mut told, &structures[..asked]);
        self.check_pools(&mut told, self.tree.pools.items());
        self.check_sets(&mut told, self.tree.sets.items());
        self.check_relations(&mut told, self.tree.relations.items());
        self.check_supplies(&mut told, self.tree.supplies.items());
        told.fault
    }
}
