// The faults of atoms.
ghost use Rattle.std.specs.Prelude.{◌≡◌, List, None, option_map};
ghost use Rattle.dsr_names.specs.Telling.{Finds};
ghost use Rattle.dsr_names.specs.Tables.{known_of};
ghost use Rattle.dsr_language_theory.specs.Known.{unknown, set_named};
ghost use Rattle.dsr_language_theory.specs.Constraints.{variable_faults, measure_names, measure_mismatches, measure_faults, atom_place, atom_names, pairs_others, atom_mismatches, atom_constants, atom_faults};
ghost use Rattle.dsr_constraint.specs.Scoped.{scope_told, Narrow};

use crate::notes::note_part;
use crate::scopes::Scope;
use crate::widths::Constants;
use dsr_ir::Rel;
use dsr_names::{
    Told, disagree, has_other_source, has_other_target, note_found, note_name, values_others,
    var_place,
};
use dsr_tree::{Atom, Condition, Measure, PlacedName, Var};

// Where an atom begins.
fn atom_place(atom: &Atom) -> u64
    ensures { result ≡ atom_place atom.now }
{
    match atom {
        Atom::Count { size, .. } => size.place,
        Atom::Pair { place, .. } => *place,
        Atom::Member { var, .. } => var_place(var),
        Atom::Value { var, .. } => var_place(var),
    }
}

impl Scope<'_> {
    // A name that is no variable.
    fn check_variable(&self, told: &mut Told, var: &Var)
        ensures { Finds (variable_faults (scope_told self.now) var.now) told.old.fault told.new.fault }
    {
        match var {
            Var::Head { .. } => (),
            Var::Name(name) => {
                note_name(told, self.named_variable(&name.name).is_some(), name);
            }
        }
    }

    fn check_relation(&self, told: &mut Told, relation: &PlacedName)
        ensures { Finds (unknown ((known_of self.now.known).relation relation.now.name)
            relation.now) told.old.fault told.new.fault }
    {
        note_found(told, self.known.relation(&relation.name), relation);
    }

    fn check_measure_names(&self, told: &mut Told, measure: &Measure)
        ensures { Finds (measure_names (scope_told self.now) measure.now) told.old.fault told.new.fault }
    {
        match measure {
            Measure::Number(_) => (),
            Measure::Size(size) => self.check_size_names(told, size),
        }
    }

    // The names of an atom that stand for nothing.
    fn check_atom_names(&self, told: &mut Told, atom: &Atom)
        ensures { Finds (atom_names (scope_told self.now) atom.now) told.old.fault told.new.fault }
    {
        match atom {
            Atom::Count { size, .. } => self.check_size_names(told, size),
            Atom::Pair {
                first,
                second,
                relation,
                ..
            } => {
                self.check_variable(told, first);
                self.check_variable(told, second);
                self.check_relation(told, relation);
            }
            Atom::Member { var, set } => {
                self.check_variable(told, var);
                note_found(told, self.known.set(&set.name), set);
            }
            Atom::Value {
                var,
                relation,
                measure,
                ..
            } => {
                self.check_variable(told, var);
                self.check_relation(told, relation);
                self.check_measure_names(told, measure);
            }
        }
    }

    fn measure_mismatches(&self, measure: &Measure) -> bool
        ensures { result ≡ measure_mismatches (scope_told self.now) measure.now }
    {
        match measure {
            Measure::Number(_) => false,
            Measure::Size(size) => self.size_mismatches(size) || self.counts_numbers(size),
        }
    }

    // Whether a relation has another source than the first variable, or other targets than the
    // second.
    fn pairs_others(&self, first: &Var, second: &Var, rel: Option<&Rel>) -> bool
        ensures { result ≡ pairs_others (scope_told self.now) first.now second.now
            (option_map (λ r. r.now) rel.entry) }
    {
        has_other_source(rel, self.pool_of(first)) || has_other_target(rel, self.pool_of(second))
    }

    // The pool of the members of the set that has a name.
    fn set_pool(&self, set: &PlacedName) -> Option<u32>
        ensures { result ≡ option_map (λ s. s.pool) (set_named (known_of self.now.known) set.now.name) }
    {
        match self.known.set_named(&set.name) {
            Some(set) => Some(set.pool),
            None => None,
        }
    }

    // Whether pools or kinds of an atom disagree.
    fn atom_mismatches(&self, atom: &Atom) -> bool
        ensures { result ≡ atom_mismatches (scope_told self.now) atom.now }
    {
        match atom {
            Atom::Count { size, .. } => self.size_mismatches(size),
            Atom::Pair {
                first,
                second,
                relation,
                ..
            } => { self.pairs_others(first, second, self.known.relation_named(&relation.name)) }
            Atom::Member { var, set } => disagree(self.pool_of(var), self.set_pool(set)),
            Atom::Value {
                var,
                relation,
                measure,
                ..
            } => {
                values_others(self.known.relation_named(&relation.name), self.pool_of(var))
                    || self.measure_mismatches(measure)
            }
        }
    }

    // A constant that is too wide for a field of a relation's values.
    fn check_measure(
        &self,
        told: &mut Told,
        constants: &Constants,
        relation: Option<u32>,
        measure: &Measure,
    )
        requires { Narrow self.now.known constants.now }
        ensures { Finds (measure_faults
            (known_of self.now.known) constants.now.rules.now relation measure.now) told.old.fault
            told.new.fault }
    {
        match measure {
            Measure::Number(number) => {
                let is_wide = constants.is_too_great(&self.known, number.number, relation);
                told.note_if(is_wide, Condition::Width, number.place);
            }
            Measure::Size(_) => (),
        }
    }

    fn check_constants(&self, told: &mut Told, constants: &Constants, atom: &Atom)
        requires { Narrow self.now.known constants.now }
        ensures { Finds (atom_constants (scope_told self.now) constants.now.rules.now atom.now)
            told.old.fault told.new.fault }
    {
        match atom {
            Atom::Value {
                relation,
                measure,
                ..
            } => {
                self.check_measure(
                    told,
                    constants,
                    self.known.relation(&relation.name),
                    measure,
                );
            }
            _ => (),
        }
    }

    /// The faults of an atom; pools and kinds are asked only where each name stands for something.
    pub fn check_atom(&self, told: &mut Told, constants: &Constants, atom: &Atom)
        requires { Narrow self.now.known constants.now }
        ensures { Finds (atom_faults (scope_told self.now) constants.now.rules.now atom.now)
            told.old.fault told.new.fault }
    {
        let mut names = Told { fault: None };
        self.check_atom_names(&mut names, atom);
        note_part(told, &names);
        let is_mismatch = names.fault.is_none() && self.atom_mismatches(atom);
        told.note_if(is_mismatch, Condition::PoolMismatch, atom_place(atom));
        self.check_constants(told, constants, atom);
    }
}
