// The lines of pools, sets, relations and supplies.
ghost use Rattle.std.specs.Prelude.{OnOk, option_map};
ghost use Rattle.dsr_tree.specs.Trees.{expr_shape};
ghost use Rattle.dsr_tree.specs.declared.tokens.Keyword.TheVariants as keyword;
ghost use Rattle.dsr_syntax_theory.specs.Phrases.{in_turn};
ghost use Rattle.dsr_syntax_theory.specs.TreeTexts.{behind_text, maybe_text, more_name_text, target_text, view_text};
ghost use Rattle.dsr_print.specs.Writing.{Adds};

use crate::atoms::add_var;
use crate::expressions::add_expr;
use crate::lines::Declaration;
use crate::marks::{add_keyword, add_name, add_sign, begin_line, end_line};
use crate::structures::add_brackets;
use dsr_ir::NoMemory;
use dsr_tree::{Expr, Fresh, Keyword, PlacedName, Pool, Relation, Set, Sign, Target, View};

// An expression behind a keyword.
fn add_behind(text: &mut Vec<u8>, keyword: Keyword, expr: &Expr) -> Result<(), NoMemory>
    ensures { OnOk result (Adds (behind_text keyword (expr_shape expr.now)) text.old.items text.new.items) }
{
    add_keyword(text, keyword)?;
    add_expr(text, expr)
}

fn add_slot(text: &mut Vec<u8>, slot: &Option<Expr>) -> Result<(), NoMemory>
    ensures { OnOk result (Adds
        (maybe_text (behind_text keyword.Slot) (option_map expr_shape slot.now)) text.old.items
        text.new.items) }
{
    match slot {
        None => Ok(()),
        Some(slot) => add_behind(text, Keyword::Slot, slot),
    }
}

impl Declaration for Pool {
    ghost use Rattle.dsr_tree.specs.Trees.{pool_shape};
    ghost use Rattle.dsr_syntax_theory.specs.TreeTexts.{pool_text};

    ghost phrase = { λ p. pool_text (pool_shape p) };

    fn add_line(&self, text: &mut Vec<u8>) -> Result<(), NoMemory> {
        begin_line(text, Keyword::Pool)?;
        add_name(text, &self.name)?;
        add_sign(text, Sign::Colon)?;
        add_name(text, &self.structure)?;
        add_brackets(text, &self.count)?;
        add_slot(text, &self.slot)?;
        add_behind(text, Keyword::At, &self.start)?;
        add_behind(text, Keyword::Codes, &self.code)?;
        add_behind(text, Keyword::Step, &self.step)?;
        add_behind(text, Keyword::None, &self.none)?;
        add_sign(text, Sign::Semicolon)?;
        end_line(text)
    }
}

fn add_view(text: &mut Vec<u8>, view: &Option<View>) -> Result<(), NoMemory>
    ensures { OnOk result (Adds (maybe_text view_text view.now) text.old.items text.new.items) }
{
    match view {
        None => Ok(()),
        Some(View::As { structure, .. }) => {
            add_keyword(text, Keyword::As)?;
            add_name(text, structure)
        }
        Some(View::Except { set, .. }) => {
            add_keyword(text, Keyword::Except)?;
            add_name(text, set)
        }
    }
}

impl Declaration for Set {
    ghost use Rattle.dsr_syntax_theory.specs.TreeTexts.{set_text};

    ghost phrase = { set_text };

    fn add_line(&self, text: &mut Vec<u8>) -> Result<(), NoMemory> {
        begin_line(text, Keyword::Set)?;
        add_name(text, &self.name)?;
        add_keyword(text, Keyword::Of)?;
        add_name(text, &self.pool)?;
        add_view(text, &self.view)?;
        add_sign(text, Sign::Semicolon)?;
        end_line(text)
    }
}

fn add_target(text: &mut Vec<u8>, target: &Target) -> Result<(), NoMemory>
    ensures { OnOk result (Adds (target_text target.now) text.old.items text.new.items) }
{
    match target {
        Target::Number { .. } => add_keyword(text, Keyword::Number),
        Target::Pool(name) => add_name(text, name),
    }
}

impl Declaration for Relation {
    ghost use Rattle.dsr_syntax_theory.specs.TreeTexts.{relation_text};

    ghost phrase = { relation_text };

    fn add_line(&self, text: &mut Vec<u8>) -> Result<(), NoMemory> {
        begin_line(text, Keyword::Relation)?;
        add_name(text, &self.name)?;
        add_sign(text, Sign::Colon)?;
        add_var(text, &self.source)?;
        add_sign(text, Sign::Arrow)?;
        add_target(text, &self.target)?;
        add_sign(text, Sign::Semicolon)?;
        end_line(text)
    }
}

fn add_more_names(text: &mut Vec<u8>, names: &[PlacedName]) -> Result<(), NoMemory>
    ensures { OnOk result (Adds (in_turn more_name_text names.now) text.old.items text.new.items) }
{
    for name in names {
        add_sign(text, Sign::Comma)?;
        add_name(text, name)?;
    }
    Ok(())
}

impl Declaration for Fresh {
    ghost use Rattle.dsr_syntax_theory.specs.TreeTexts.{fresh_text};

    ghost phrase = { fresh_text };

    fn add_line(&self, text: &mut Vec<u8>) -> Result<(), NoMemory> {
        begin_line(text, Keyword::Fresh)?;
        add_name(text, &self.pool)?;
        add_keyword(text, Keyword::Avoid)?;
        add_name(text, &self.first)?;
        add_more_names(text, self.rest.items())?;
        add_sign(text, Sign::Semicolon)?;
        end_line(text)
    }
}
