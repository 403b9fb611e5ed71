//! The canonical text of a specification's tree.
#![tactic(auto)]

mod atoms;
mod constraints;
mod expressions;
mod formulas;
mod lines;
mod marks;
mod pools;
mod rules;
mod structures;

ghost use Rattle.std.specs.Prelude.{◌≡◌, ℕ, List, IfOk, OnOk};
ghost use Rattle.dsr_tree.specs.Trees.{tree_shape};
ghost use Rattle.dsr_syntax_theory.specs.Canonical.{canonical};
ghost use Rattle.dsr_syntax_theory.specs.Parsing.{IsReprinted, IsTreeOf};
ghost use Rattle.dsr_syntax_theory.specs.TreeTexts.{endian_text, order_text, version_text};
ghost use Rattle.dsr_print.specs.Writing.{Adds, AddsLine};

use crate::lines::add_lines;
use crate::marks::{add_keyword, add_number, add_sign, begin_line, end_line};
use dsr_ir::{NoMemory, Order};
use dsr_tree::{Keyword, Sign, Tree};
use std::alloc::Global;

fn add_version(text: &mut Vec<u8>, tree: &Tree) -> Result<(), NoMemory>
    ensures { OnOk result (AddsLine (version_text (tree_shape tree.now)) text.old.items text.new.items) }
{
    begin_line(text, Keyword::Version)?;
    add_number(text, tree.version)?;
    add_sign(text, Sign::Semicolon)?;
    end_line(text)
}

fn add_endian(text: &mut Vec<u8>, order: Order) -> Result<(), NoMemory>
    ensures { OnOk result (Adds (endian_text order) text.old.items text.new.items) }
{
    match order {
        Order::Little => add_keyword(text, Keyword::Little),
        Order::Big => add_keyword(text, Keyword::Big),
    }
}

fn add_order(text: &mut Vec<u8>, order: Order) -> Result<(), NoMemory>
    ensures { OnOk result (AddsLine (order_text order) text.old.items text.new.items) }
{
    begin_line(text, Keyword::Order)?;
    add_endian(text, order)?;
    add_sign(text, Sign::Semicolon)?;
    end_line(text)
}

/// The canonical text of a tree: a line for each declaration, its tokens joined by single spaces,
/// with numbers in decimal. It isn't cut to the limit of a text: of a tree whose text is longer
/// than a specification may be, the whole canonical text is printed.
pub fn print(alloc: Global, tree: &Tree) -> Result<Vec<u8>, NoMemory>
    ensures canonical { IfOk result (λ text. text.items ≡ canonical (tree_shape tree.now)) }
    // Where the tree is one that was read, its text is read again as this tree but for places.
    ensures again { IfOk result
        (λ text. (source : List ℕ) → IsTreeOf source (tree_shape tree.now) →
        IsReprinted source text.items (tree_shape tree.now)) }
{
    let mut text = Vec::new(alloc);
    add_version(&mut text, tree)?;
    add_order(&mut text, tree.order)?;
    add_lines(&mut text, tree.structures.items())?;
    add_lines(&mut text, tree.pools.items())?;
    add_lines(&mut text, tree.sets.items())?;
    add_lines(&mut text, tree.relations.items())?;
    add_lines(&mut text, tree.supplies.items())?;
    add_lines(&mut text, tree.rules.items())?;
    add_lines(&mut text, tree.constraints.items())?;
    Ok(text)
}
