// The text of a formula.
ghost use Rattle.std.specs.Prelude.{OnOk, map};
ghost use Rattle.dsr_tree.specs.Trees.{formula_shape, join_shape, unit_shape};
ghost use Rattle.dsr_syntax_theory.specs.Phrases.{in_turn};
ghost use Rattle.dsr_syntax_theory.specs.TreeTexts.{formula_text, join_text, unit_text};
ghost use Rattle.dsr_print.specs.Writing.{Adds, behind_or, behind_and, not_text, given_text, parenthesized_text};

use crate::atoms::add_atom;
use crate::marks::{add_keyword, add_sign};
use dsr_ir::NoMemory;
use dsr_tree::{Formula, Join, Keyword, Sign, Unit};

#[cycle(formula)]
pub fn add_formula(text: &mut Vec<u8>, formula: &Formula) -> Result<(), NoMemory>
    ensures { OnOk result (Adds (formula_text (formula_shape formula.now)) text.old.items text.new.items) }
{
    add_join(text, &formula.first)?;
    add_more_joins(text, &formula.rest)
}

#[cycle(formula)]
fn add_more_joins(text: &mut Vec<u8>, joins: &[Join]) -> Result<(), NoMemory>
    ensures { OnOk result (Adds (in_turn behind_or (map join_shape joins.now)) text.old.items text.new.items) }
{
    for join in joins {
        add_keyword(text, Keyword::Or)?;
        add_join(text, join)?;
    }
    Ok(())
}

#[cycle(formula)]
fn add_join(text: &mut Vec<u8>, join: &Join) -> Result<(), NoMemory>
    ensures { OnOk result (Adds (join_text (join_shape join.now)) text.old.items text.new.items) }
{
    add_unit(text, &join.first)?;
    add_more_units(text, &join.rest)
}

#[cycle(formula)]
fn add_more_units(text: &mut Vec<u8>, units: &[Unit]) -> Result<(), NoMemory>
    ensures { OnOk result (Adds (in_turn behind_and (map unit_shape units.now)) text.old.items text.new.items) }
{
    for unit in units {
        add_keyword(text, Keyword::And)?;
        add_unit(text, unit)?;
    }
    Ok(())
}

#[cycle(formula)]
fn add_unit(text: &mut Vec<u8>, unit: &Unit) -> Result<(), NoMemory>
    ensures { OnOk result (Adds (unit_text (unit_shape unit.now)) text.old.items text.new.items) }
{
    match unit {
        Unit::Not { unit, .. } => add_not(text, unit),
        Unit::Given { unit, .. } => add_given(text, unit),
        Unit::Group { formula, .. } => add_group(text, formula),
        Unit::Atom(atom) => add_atom(text, atom),
    }
}

#[cycle(formula)]
fn add_not(text: &mut Vec<u8>, unit: &Unit) -> Result<(), NoMemory>
    ensures { OnOk result (Adds (not_text (unit_shape unit.now)) text.old.items text.new.items) }
{
    add_keyword(text, Keyword::Not)?;
    add_unit(text, unit)
}

#[cycle(formula)]
fn add_given(text: &mut Vec<u8>, unit: &Unit) -> Result<(), NoMemory>
    ensures { OnOk result (Adds (given_text (unit_shape unit.now)) text.old.items text.new.items) }
{
    add_keyword(text, Keyword::Given)?;
    add_unit(text, unit)
}

#[cycle(formula)]
fn add_group(text: &mut Vec<u8>, formula: &Formula) -> Result<(), NoMemory>
    ensures { OnOk result (Adds
        (parenthesized_text (formula_shape formula.now)) text.old.items text.new.items) }
{
    add_sign(text, Sign::OpenParenthesis)?;
    add_formula(text, formula)?;
    add_sign(text, Sign::CloseParenthesis)
}
