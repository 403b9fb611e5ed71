// Sizes: their names, and whether the relations in them are those of a variable.
ghost use Rattle.std.specs.Prelude.{◌≡◌, None, Some, option_map};
ghost use Rattle.dsr_language_theory.specs.Faults.{when};
ghost use Rattle.dsr_names.specs.Telling.{Finds};
ghost use Rattle.dsr_language_theory.specs.Known.{unknown};
ghost use Rattle.dsr_language_theory.specs.TypedConstraints.{counts_targets, counts_sources};
ghost use Rattle.dsr_language_theory.specs.Constraints.{size_names, relation_at, size_mismatches, counts_numbers};
ghost use Rattle.dsr_constraint.specs.Scoped.{scope_told, unknown_place};

use crate::scopes::Scope;
use dsr_ir::Rel;
use dsr_names::{Told, gives_numbers, has_other_source, has_other_targets, note_found};
use dsr_tree::{Condition, PlacedName, Size, Var};

impl Scope<'_> {
    /// Whether `size(a.b)` counts the targets of a variable a under a relation b.
    pub fn counts_targets(&self, var: &Var, part: &PlacedName) -> bool
        ensures { result ≡ counts_targets (scope_told self.now) var.now part.now }
    {
        self.variable(var).is_some() && self.known.relation(&part.name).is_some()
    }

    // Whether it counts the sources of a variable b under a relation a.
    fn counts_sources(&self, var: &Var, part: &PlacedName) -> bool
        ensures { result ≡ counts_sources (scope_told self.now) var.now part.now }
    {
        self.relation_of(var).is_some() && self.named_variable(&part.name).is_some()
    }

    // Where a size of two names is told that it counts nothing: at the second one where the first
    // is known.
    fn unknown_place(&self, first: &PlacedName, part: &PlacedName) -> u64
        ensures { result ≡ unknown_place (scope_told self.now) first.now part.now }
    {
        if self.named_variable(&first.name).is_some()
            || self.known.relation(&first.name).is_some()
        {
            part.place
        } else {
            first.place
        }
    }

    fn check_whole_name(&self, told: &mut Told, var: &Var)
        ensures { Finds (size_names (scope_told self.now) var.now None) told.old.fault told.new.fault }
    {
        match var {
            Var::Head { .. } => (),
            Var::Name(name) => {
                note_found(told, self.known.set(&name.name), name);
            }
        }
    }

    fn check_part_names(&self, told: &mut Told, var: &Var, part: &PlacedName)
        ensures { Finds (size_names (scope_told self.now) var.now (Some part.now)) told.old.fault
            told.new.fault }
    {
        match var {
            Var::Head { .. } => {
                note_found(told, self.known.relation(&part.name), part);
            }
            Var::Name(first) => {
                let is_counted = self.counts_targets(var, part) || self.counts_sources(var, part);
                let place = self.unknown_place(first, part);
                told.note_if(!is_counted, Condition::UnknownName, place);
            }
        }
    }

    /// The names of a size that stand for nothing.
    pub fn check_size_names(&self, told: &mut Told, size: &Size)
        ensures { Finds (size_names (scope_told self.now) size.now.var size.now.part) told.old.fault
            told.new.fault }
    {
        match &size.part {
            Some(part) => self.check_part_names(told, &size.var, part),
            None => self.check_whole_name(told, &size.var),
        }
    }

    // The declaration of the relation of this name.
    fn relation_at(&self, var: &Var) -> Option<&Rel>
        ensures { option_map (λ r. r.now) result ≡ relation_at (scope_told self.now).known var.now }
    {
        match self.relation_of(var) {
            Some(relation) => self.known.base.rels.items().get(relation as usize),
            None => None,
        }
    }

    fn part_mismatches(&self, var: &Var, part: &PlacedName) -> bool
        ensures { result ≡ size_mismatches (scope_told self.now) var.now (Some part.now) }
    {
        if self.counts_targets(var, part) {
            has_other_source(self.known.relation_named(&part.name), self.pool_of(var))
        } else {
            has_other_targets(self.relation_at(var), self.pool_of_name(part))
        }
    }

    /// Whether a size isn't one of a form, or has a relation that isn't one of the variable's pool.
    pub fn size_mismatches(&self, size: &Size) -> bool
        ensures { result ≡ size_mismatches (scope_told self.now) size.now.var size.now.part }
    {
        match &size.part {
            Some(part) => self.part_mismatches(&size.var, part),
            None => matches!(&size.var, Var::Head { .. }),
        }
    }

    /// Whether what a size counts are numbers.
    pub fn counts_numbers(&self, size: &Size) -> bool
        ensures { result ≡ counts_numbers (scope_told self.now) size.now.var size.now.part }
    {
        match &size.part {
            Some(part) => {
                self.counts_targets(&size.var, part)
                    && gives_numbers(self.known.relation_named(&part.name))
            }
            None => false,
        }
    }
}
