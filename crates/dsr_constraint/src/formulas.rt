// The faults of the atoms of a formula.
ghost use Rattle.dsr_tree.specs.Trees.{formula_shape, join_shape, unit_shape};
ghost use Rattle.dsr_names.specs.Telling.{Finds};
ghost use Rattle.dsr_language_theory.specs.Constraints.{formula_faults, join_faults, unit_faults};
ghost use Rattle.dsr_constraint.specs.Scoped.{scope_told, Narrow, faults_of_joins, faults_of_units};

use crate::scopes::Scope;
use crate::widths::Constants;
use dsr_names::Told;
use dsr_tree::{Formula, Join, Unit};

/// The faults of all atoms of a formula.
#[cycle(formula)]
pub fn check_formula(scope: &Scope, told: &mut Told, constants: &Constants, formula: &Formula)
    requires { Narrow scope.now.known constants.now }
    ensures { Finds (formula_faults (scope_told scope.now) constants.now.rules.now
        (formula_shape formula.now)) told.old.fault told.new.fault }
{
    check_join(scope, told, constants, &formula.first);
    check_joins(scope, told, constants, &formula.rest);
}

#[cycle(formula)]
fn check_joins(scope: &Scope, told: &mut Told, constants: &Constants, joins: &[Join])
    requires { Narrow scope.now.known constants.now }
    ensures { Finds (faults_of_joins scope.now constants.now joins.now) told.old.fault told.new.fault }
{
    for join in joins {
        check_join(scope, told, constants, join);
    }
}

#[cycle(formula)]
fn check_join(scope: &Scope, told: &mut Told, constants: &Constants, join: &Join)
    requires { Narrow scope.now.known constants.now }
    ensures { Finds (join_faults (scope_told scope.now) constants.now.rules.now
        (join_shape join.now)) told.old.fault told.new.fault }
{
    check_unit(scope, told, constants, &join.first);
    check_units(scope, told, constants, &join.rest);
}

#[cycle(formula)]
fn check_units(scope: &Scope, told: &mut Told, constants: &Constants, units: &[Unit])
    requires { Narrow scope.now.known constants.now }
    ensures { Finds (faults_of_units scope.now constants.now units.now) told.old.fault told.new.fault }
{
    for unit in units {
        check_unit(scope, told, constants, unit);
    }
}

#[cycle(formula)]
fn check_unit(scope: &Scope, told: &mut Told, constants: &Constants, unit: &Unit)
    requires { Narrow scope.now.known constants.now }
    ensures { Finds (unit_faults (scope_told scope.now) constants.now.rules.now
        (unit_shape unit.now)) told.old.fault told.new.fault }
{
    match unit {
        Unit::Not { unit, .. } => check_unit(scope, told, constants, unit),
        Unit::Given { unit, .. } => check_unit(scope, told, constants, unit),
        Unit::Group { formula, .. } => check_formula(scope, told, constants, formula),
        Unit::Atom(atom) => scope.check_atom(told, constants, atom),
    }
}
