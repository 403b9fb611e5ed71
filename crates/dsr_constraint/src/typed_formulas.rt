// Typed formulas.
ghost use Rattle.std.specs.Prelude.{◌≡◌, map, IfOk};
ghost use Rattle.dsr_ir.specs.Formulas.{in_row, formula_shape};
ghost use Rattle.dsr_tree.specs.Trees.{formula_shape as formula_tree_of, join_shape, unit_shape};
ghost use Rattle.dsr_language_theory.specs.TypedConstraints.{typed_formula, typed_join, typed_unit};
ghost use Rattle.dsr_constraint.specs.Scoped.{scope_told, joins_behind, units_behind};

use crate::scopes::Scope;
use dsr_ir::{FormulaNode, NoMemory};
use dsr_tree::{Formula, Join, Unit};
use std::alloc::Global;

/// A formula with its names resolved; parentheses leave no trace.
#[cycle(formula)]
pub fn typed_formula(
    alloc: Global,
    scope: &Scope,
    formula: &Formula,
) -> Result<FormulaNode, NoMemory>
    ensures { IfOk result (λ node. formula_shape node
        ≡ typed_formula (scope_told scope.now) (formula_tree_of formula.now)) }
{
    let first = typed_join(alloc, scope, &formula.first)?;
    Ok(FormulaNode::Any(typed_joins(alloc, scope, &formula.rest, first)?))
}

// The joins behind a first one.
#[cycle(formula)]
fn typed_joins(
    alloc: Global,
    scope: &Scope,
    rest: &[Join],
    first: FormulaNode,
) -> Result<Vec<FormulaNode>, NoMemory>
    ensures { IfOk result (λ parts. in_row (map formula_shape parts.items)
        ≡ joins_behind (formula_shape first) scope.now rest.now) }
{
    let mut parts = Vec::new(alloc);
    parts.push(first)?;
    for join in rest {
        let part = typed_join(alloc, scope, join)?;
        parts.push(part)?;
    }
    Ok(parts)
}

#[cycle(formula)]
fn typed_join(alloc: Global, scope: &Scope, join: &Join) -> Result<FormulaNode, NoMemory>
    ensures { IfOk result (λ node. formula_shape node
        ≡ typed_join (scope_told scope.now) (join_shape join.now)) }
{
    let first = typed_unit(alloc, scope, &join.first)?;
    Ok(FormulaNode::Every(typed_units(alloc, scope, &join.rest, first)?))
}

// The units behind a first one.
#[cycle(formula)]
fn typed_units(
    alloc: Global,
    scope: &Scope,
    rest: &[Unit],
    first: FormulaNode,
) -> Result<Vec<FormulaNode>, NoMemory>
    ensures { IfOk result (λ parts. in_row (map formula_shape parts.items)
        ≡ units_behind (formula_shape first) scope.now rest.now) }
{
    let mut parts = Vec::new(alloc);
    parts.push(first)?;
    for unit in rest {
        let part = typed_unit(alloc, scope, unit)?;
        parts.push(part)?;
    }
    Ok(parts)
}

#[cycle(formula)]
fn typed_unit(alloc: Global, scope: &Scope, unit: &Unit) -> Result<FormulaNode, NoMemory>
    ensures { IfOk result (λ node. formula_shape node
        ≡ typed_unit (scope_told scope.now) (unit_shape unit.now)) }
{
    match unit {
        Unit::Not { unit, .. } => Ok(FormulaNode::Not(boxed_unit(alloc, scope, unit)?)),
        Unit::Given { unit, .. } => Ok(FormulaNode::Given(boxed_unit(alloc, scope, unit)?)),
        Unit::Group { formula, .. } => typed_formula(alloc, scope, formula),
        Unit::Atom(atom) => Ok(FormulaNode::Leaf(scope.typed_atom(atom))),
    }
}

// A unit, in a box of its own.
#[cycle(formula)]
fn boxed_unit(alloc: Global, scope: &Scope, unit: &Unit) -> Result<Box<FormulaNode>, NoMemory>
    ensures { IfOk result (λ node. formula_shape node.value
        ≡ typed_unit (scope_told scope.now) (unit_shape unit.now)) }
{
    Ok(Box::new(alloc, typed_unit(alloc, scope, unit)?)?)
}
