// The line of a constraint.
ghost use Rattle.std.specs.Prelude.{OnOk};
ghost use Rattle.dsr_syntax_theory.specs.TreeTexts.{binder_text, maybe_text, quantifier_text};
ghost use Rattle.dsr_print.specs.Writing.{Adds};

use crate::formulas::add_formula;
use crate::lines::Declaration;
use crate::marks::{add_keyword, add_name, add_sign, begin_line, end_line};
use dsr_ir::NoMemory;
use dsr_tree::{Binder, Constraint, Keyword, Quantifier, Sign};

fn add_binder(text: &mut Vec<u8>, binder: &Binder) -> Result<(), NoMemory>
    ensures { OnOk result (Adds (binder_text binder.now) text.old.items text.new.items) }
{
    match binder {
        Binder::One(name) => add_name(text, name),
        Binder::Pair { first, second, .. } => {
            add_sign(text, Sign::Less)?;
            add_name(text, first)?;
            add_sign(text, Sign::Comma)?;
            add_name(text, second)?;
            add_sign(text, Sign::Greater)
        }
    }
}

fn add_some_quantifier(text: &mut Vec<u8>, quantifier: &Quantifier) -> Result<(), NoMemory>
    ensures { OnOk result (Adds (quantifier_text quantifier.now) text.old.items text.new.items) }
{
    add_keyword(text, Keyword::Forall)?;
    add_binder(text, &quantifier.binder)?;
    add_keyword(text, Keyword::In)?;
    add_name(text, &quantifier.symbol)?;
    add_sign(text, Sign::Colon)
}

fn add_quantifier(text: &mut Vec<u8>, quantifier: &Option<Quantifier>) -> Result<(), NoMemory>
    ensures { OnOk result (Adds (maybe_text quantifier_text quantifier.now) text.old.items text.new.items) }
{
    match quantifier {
        None => Ok(()),
        Some(quantifier) => add_some_quantifier(text, quantifier),
    }
}

impl Declaration for Constraint {
    ghost use Rattle.dsr_tree.specs.Trees.{constraint_shape};
    ghost use Rattle.dsr_syntax_theory.specs.TreeTexts.{constraint_text};

    ghost phrase = { λ c. constraint_text (constraint_shape c) };

    fn add_line(&self, text: &mut Vec<u8>) -> Result<(), NoMemory> {
        begin_line(text, Keyword::Constraint)?;
        add_name(text, &self.name)?;
        add_sign(text, Sign::Colon)?;
        add_quantifier(text, &self.quantifier)?;
        add_formula(text, &self.formula)?;
        add_sign(text, Sign::Semicolon)?;
        end_line(text)
    }
}
