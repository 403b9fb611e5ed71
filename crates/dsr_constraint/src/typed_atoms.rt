// Typed atoms.
ghost use Rattle.std.specs.Prelude.{◌≡◌};
ghost use Rattle.dsr_language_theory.specs.TypedRules.{number_of};
ghost use Rattle.dsr_language_theory.specs.TypedConstraints.{variable_in, typed_size, typed_measure, typed_atom};
ghost use Rattle.dsr_tree.specs.declared.tree.Var.TheVariants as vars;
ghost use Rattle.dsr_constraint.specs.Scoped.{scope_told};

use crate::scopes::Scope;
use dsr_ir::{Atom, Bound, Measure, Var};
use dsr_names::{number_of, typed_bound, typed_compare};
use dsr_tree::{PlacedName, Size};

impl Scope<'_> {
    fn variable_in(&self, var: &dsr_tree::Var) -> Var
        ensures { result ≡ variable_in (scope_told self.now) var.now }
    {
        self.variable(var).unwrap_or(Var::Head)
    }

    fn named_variable_in(&self, name: &PlacedName) -> Var
        ensures { result ≡ variable_in (scope_told self.now) (vars.Name name.now) }
    {
        self.named_variable(&name.name).unwrap_or(Var::Head)
    }

    fn relation_in(&self, name: &PlacedName) -> u32
        ensures { result ≡ number_of ((scope_told self.now).known.relation name.now.name) }
    {
        number_of(self.known.relation(&name.name))
    }

    fn typed_part(&self, var: &dsr_tree::Var, part: &PlacedName) -> Measure
        ensures { result ≡ typed_size (scope_told self.now) var.now (Some part.now) }
    {
        if self.counts_targets(var, part) {
            Measure::Out(self.variable_in(var), self.relation_in(part))
        } else {
            Measure::Into(
                number_of(self.relation_of(var)),
                self.named_variable_in(part),
            )
        }
    }

    fn typed_size(&self, size: &Size) -> Measure
        ensures { result ≡ typed_size (scope_told self.now) size.now.var size.now.part }
    {
        match &size.part {
            Some(part) => self.typed_part(&size.var, part),
            None => Measure::Whole(number_of(self.set_of(&size.var))),
        }
    }

    fn typed_measure(&self, measure: &dsr_tree::Measure) -> Bound
        ensures { result ≡ typed_measure (scope_told self.now) measure.now }
    {
        match measure {
            dsr_tree::Measure::Number(number) => Bound::Num(number.number),
            dsr_tree::Measure::Size(size) => Bound::Size(self.typed_size(size)),
        }
    }

    /// An atom with its names resolved.
    pub fn typed_atom(&self, atom: &dsr_tree::Atom) -> Atom
        ensures { result ≡ typed_atom (scope_told self.now) atom.now }
    {
        match atom {
            dsr_tree::Atom::Count {
                size,
                bound,
                number,
            } => { Atom::Count(self.typed_size(size), typed_bound(*bound), number.number) }
            dsr_tree::Atom::Pair {
                first,
                second,
                relation,
                ..
            } => {
                Atom::Pair(
                    self.variable_in(first),
                    self.variable_in(second),
                    self.relation_in(relation),
                )
            }
            dsr_tree::Atom::Member { var, set } => {
                Atom::Member(self.variable_in(var), number_of(self.known.set(&set.name)))
            }
            dsr_tree::Atom::Value {
                var,
                relation,
                compare,
                measure,
            } => {
                let bound = self.typed_measure(measure);
                Atom::Value(
                    self.variable_in(var),
                    self.relation_in(relation),
                    typed_compare(*compare),
                    bound,
                )
            }
        }
    }
}
