// The faults of guards.
ghost use Rattle.std.specs.Prelude.{◌≡◌};
ghost use Rattle.dsr_language_theory.specs.RuleFaults.{guard_faults};
ghost use Rattle.dsr_rules.specs.Scopes.{scope_told, is_no_reference, is_no_number, tested_faults, compared_faults, more_guards_faults, guards_faults};
ghost use Rattle.dsr_names.specs.Telling.{Finds};

use crate::scopes::Scope;
use dsr_ir::FieldRef;
use dsr_names::{Told, var_place};
use dsr_tree::{Compare, Condition, Guard, Guards, Path, PlacedNumber, RefTest, Var};

impl Scope<'_> {
    // Whether what a guard tests is known to be no reference of the record.
    fn is_no_reference(&self, var: &Var, field: Option<FieldRef>) -> bool
        ensures { result ≡ is_no_reference (scope_told self.now) var.now field }
    {
        self.is_other_head(var) || self.known.is_number(field)
    }

    // Whether what a guard compares is known to be no number of the record.
    fn is_no_number(&self, var: &Var, field: Option<FieldRef>) -> bool
        ensures { result ≡ is_no_number (scope_told self.now) var.now field }
    {
        self.is_other_head(var) || self.known.is_reference(field)
    }

    fn check_tested(&self, told: &mut Told, place: u64, test: RefTest, path: &Path)
        ensures { Finds (tested_faults (scope_told self.now) place test path.now) told.old.fault
            told.new.fault }
    {
        let field = self.check_path(told, path);
        let is_no_reference = self.is_no_reference(&path.var, field);
        told.note_if(is_no_reference, Condition::PoolMismatch, place);
    }

    fn check_compared(&self, told: &mut Told, path: &Path, compare: Compare, number: PlacedNumber)
        ensures { Finds (compared_faults (scope_told self.now) path.now compare number)
            told.old.fault told.new.fault }
    {
        let field = self.check_path(told, path);
        let is_no_number = self.is_no_number(&path.var, field);
        let is_too_narrow = self.known.is_too_narrow(number.number, field);
        told.note_if(is_no_number, Condition::PoolMismatch, var_place(&path.var));
        told.note_if(is_too_narrow, Condition::Width, number.place);
    }

    fn check_guard(&self, told: &mut Told, guard: &Guard)
        ensures { Finds (guard_faults (scope_told self.now) guard.now) told.old.fault told.new.fault }
    {
        match guard {
            Guard::Tested { place, test, path } => self.check_tested(told, *place, *test, path),
            Guard::Compared {
                path,
                compare,
                number,
            } => self.check_compared(told, path, *compare, *number),
        }
    }

    fn check_more_guards(&self, told: &mut Told, guards: &[Guard])
        ensures { Finds (more_guards_faults (scope_told self.now) guards.now) told.old.fault told.new.fault }
    {
        for guard in guards {
            self.check_guard(told, guard);
        }
    }

    /// Notes the faults of a rule's guards.
    pub fn check_guards(&self, told: &mut Told, guards: &Option<Guards>)
        ensures { Finds (guards_faults (scope_told self.now) guards.now) told.old.fault told.new.fault }
    {
        if let Some(guards) = guards {
            self.check_guard(told, &guards.first);
            self.check_more_guards(told, guards.rest.items());
        }
    }
}
