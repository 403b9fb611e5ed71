// Where `not` stands above a size or a value.
ghost use Rattle.std.specs.Prelude.{◌≡◌, map};
ghost use Rattle.dsr_tree.specs.Trees.{formula_shape, join_shape, unit_shape, in_joins, in_units};
ghost use Rattle.dsr_language_theory.specs.Faults.{when};
ghost use Rattle.dsr_tree.specs.declared.faults.Condition.TheVariants as conditions;
ghost use Rattle.dsr_names.specs.Telling.{Finds};
ghost use Rattle.dsr_language_theory.specs.Constraints.{is_value, has_value, joins_have_value, join_has_value, units_have_value, unit_has_value, negations, joins_negations, join_negations, units_negations, unit_negations};

use dsr_names::Told;
use dsr_tree::{Atom, Condition, Formula, Join, Unit};

// Whether an atom is a size or a value.
fn is_value(atom: &Atom) -> bool
    ensures { result ≡ is_value atom.now }
{
    match atom {
        Atom::Count { .. } | Atom::Value { .. } => true,
        Atom::Pair { .. } | Atom::Member { .. } => false,
    }
}

// Whether a size or a value stands in a formula.
#[cycle(value)]
fn has_value(formula: &Formula) -> bool
    ensures { result ≡ has_value (formula_shape formula.now) }
{
    join_has_value(&formula.first) || joins_have_value(&formula.rest)
}

#[cycle(value)]
fn joins_have_value(joins: &[Join]) -> bool
    ensures { result ≡ joins_have_value (in_joins (map join_shape joins.now)) }
{
    for join in joins {
        if join_has_value(join) {
            return true;
        }
    }
    false
}

#[cycle(value)]
fn join_has_value(join: &Join) -> bool
    ensures { result ≡ join_has_value (join_shape join.now) }
{
    unit_has_value(&join.first) || units_have_value(&join.rest)
}

#[cycle(value)]
fn units_have_value(units: &[Unit]) -> bool
    ensures { result ≡ units_have_value (in_units (map unit_shape units.now)) }
{
    for unit in units {
        if unit_has_value(unit) {
            return true;
        }
    }
    false
}

#[cycle(value)]
fn unit_has_value(unit: &Unit) -> bool
    ensures { result ≡ unit_has_value (unit_shape unit.now) }
{
    match unit {
        Unit::Not { unit, .. } => unit_has_value(unit),
        Unit::Given { unit, .. } => unit_has_value(unit),
        Unit::Group { formula, .. } => has_value(formula),
        Unit::Atom(atom) => is_value(atom),
    }
}

/// The outermost `not` above a size or a value, each.
#[cycle(negation)]
pub fn check_negations(told: &mut Told, formula: &Formula)
    ensures { Finds (negations (formula_shape formula.now)) told.old.fault told.new.fault }
{
    check_join_negations(told, &formula.first);
    check_joins_negations(told, &formula.rest);
}

#[cycle(negation)]
fn check_joins_negations(told: &mut Told, joins: &[Join])
    ensures { Finds (joins_negations (in_joins (map join_shape joins.now))) told.old.fault told.new.fault }
{
    for join in joins {
        check_join_negations(told, join);
    }
}

#[cycle(negation)]
fn check_join_negations(told: &mut Told, join: &Join)
    ensures { Finds (join_negations (join_shape join.now)) told.old.fault told.new.fault }
{
    check_unit_negations(told, &join.first);
    check_units_negations(told, &join.rest);
}

#[cycle(negation)]
fn check_units_negations(told: &mut Told, units: &[Unit])
    ensures { Finds (units_negations (in_units (map unit_shape units.now))) told.old.fault told.new.fault }
{
    for unit in units {
        check_unit_negations(told, unit);
    }
}

#[cycle(negation)]
fn check_unit_negations(told: &mut Told, unit: &Unit)
    ensures { Finds (unit_negations (unit_shape unit.now)) told.old.fault told.new.fault }
{
    match unit {
        Unit::Not { place, unit } => check_not(told, *place, unit),
        Unit::Given { unit, .. } => check_unit_negations(told, unit),
        Unit::Group { formula, .. } => check_negations(told, formula),
        Unit::Atom(_) => (),
    }
}

// The unit below a `not`.
fn check_not(told: &mut Told, place: u64, unit: &Unit)
    ensures { Finds (when (unit_has_value (unit_shape unit.now)) conditions.NegatedValue place)
        told.old.fault told.new.fault }
{
    told.note_if(unit_has_value(unit), Condition::NegatedValue, place);
}
