// The text of an atom, and of what rules and atoms share.
ghost use Rattle.std.specs.Prelude.{OnOk};
ghost use Rattle.dsr_syntax_theory.specs.TreeTexts.{var_text, bound_text, compare_text, maybe_text, size_part_text, size_text, measure_text, atom_text};
ghost use Rattle.dsr_print.specs.Writing.{Adds, pair_text};

use crate::marks::{add_keyword, add_name, add_number, add_sign};
use dsr_ir::NoMemory;
use dsr_tree::{Atom, Bound, Compare, Keyword, Measure, PlacedName, Sign, Size, Var};

pub fn add_var(text: &mut Vec<u8>, var: &Var) -> Result<(), NoMemory>
    ensures { OnOk result (Adds (var_text var.now) text.old.items text.new.items) }
{
    match var {
        Var::Head { .. } => add_keyword(text, Keyword::Head),
        Var::Name(name) => add_name(text, name),
    }
}

fn add_bound(text: &mut Vec<u8>, bound: Bound) -> Result<(), NoMemory>
    ensures { OnOk result (Adds (bound_text bound) text.old.items text.new.items) }
{
    match bound {
        Bound::AtMost => add_sign(text, Sign::AtMost),
        Bound::AtLeast => add_sign(text, Sign::AtLeast),
        Bound::Equal => add_sign(text, Sign::Equal),
    }
}

pub fn add_compare(text: &mut Vec<u8>, compare: Compare) -> Result<(), NoMemory>
    ensures { OnOk result (Adds (compare_text compare) text.old.items text.new.items) }
{
    match compare {
        Compare::Equal => add_sign(text, Sign::Equal),
        Compare::Differs => add_sign(text, Sign::Differs),
        Compare::Less => add_sign(text, Sign::Less),
        Compare::AtMost => add_sign(text, Sign::AtMost),
        Compare::Greater => add_sign(text, Sign::Greater),
        Compare::AtLeast => add_sign(text, Sign::AtLeast),
    }
}

fn add_size_part(text: &mut Vec<u8>, part: &Option<PlacedName>) -> Result<(), NoMemory>
    ensures { OnOk result (Adds (maybe_text size_part_text part.now) text.old.items text.new.items) }
{
    match part {
        None => Ok(()),
        Some(name) => {
            add_sign(text, Sign::Dot)?;
            add_name(text, name)
        }
    }
}

fn add_size(text: &mut Vec<u8>, size: &Size) -> Result<(), NoMemory>
    ensures { OnOk result (Adds (size_text size.now) text.old.items text.new.items) }
{
    add_keyword(text, Keyword::Size)?;
    add_sign(text, Sign::OpenParenthesis)?;
    add_var(text, &size.var)?;
    add_size_part(text, &size.part)?;
    add_sign(text, Sign::CloseParenthesis)
}

fn add_measure(text: &mut Vec<u8>, measure: &Measure) -> Result<(), NoMemory>
    ensures { OnOk result (Adds (measure_text measure.now) text.old.items text.new.items) }
{
    match measure {
        Measure::Number(number) => add_number(text, *number),
        Measure::Size(size) => add_size(text, size),
    }
}

fn add_pair(
    text: &mut Vec<u8>,
    first: &Var,
    second: &Var,
    relation: &PlacedName,
) -> Result<(), NoMemory>
    ensures { OnOk result (Adds (pair_text first.now second.now relation.now) text.old.items text.new.items) }
{
    add_sign(text, Sign::Less)?;
    add_var(text, first)?;
    add_sign(text, Sign::Comma)?;
    add_var(text, second)?;
    add_sign(text, Sign::Greater)?;
    add_keyword(text, Keyword::In)?;
    add_name(text, relation)
}

pub fn add_atom(text: &mut Vec<u8>, atom: &Atom) -> Result<(), NoMemory>
    ensures { OnOk result (Adds (atom_text atom.now) text.old.items text.new.items) }
{
    match atom {
        Atom::Count {
            size,
            bound,
            number,
        } => {
            add_size(text, size)?;
            add_bound(text, *bound)?;
            add_number(text, *number)
        }
        Atom::Pair {
            first,
            second,
            relation,
            ..
        } => add_pair(text, first, second, relation),
        Atom::Member { var, set } => {
            add_var(text, var)?;
            add_keyword(text, Keyword::In)?;
            add_name(text, set)
        }
        Atom::Value {
            var,
            relation,
            compare,
            measure,
        } => {
            add_var(text, var)?;
            add_sign(text, Sign::Dot)?;
            add_name(text, relation)?;
            add_compare(text, *compare)?;
            add_measure(text, measure)
        }
    }
}
