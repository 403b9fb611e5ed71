// The text of an expression.
ghost use Rattle.std.specs.Prelude.{OnOk, map};
ghost use Rattle.dsr_tree.specs.Trees.{expr_shape, term_shape, factor_shape, more_term_shape, more_factor_shape};
ghost use Rattle.dsr_syntax_theory.specs.Phrases.{in_turn};
ghost use Rattle.dsr_syntax_theory.specs.TreeTexts.{expr_text, term2_text, factor_text, more_term_text, more_factor_text, sum_text, product_text};
ghost use Rattle.dsr_print.specs.Writing.{Adds, group_text};

use crate::marks::{add_name, add_number, add_sign};
use dsr_ir::NoMemory;
use dsr_tree::{Expr, Factor, MoreFactor, MoreTerm, ProductSign, Sign, SumSign, Term2};

fn add_sum_sign(text: &mut Vec<u8>, sum: SumSign) -> Result<(), NoMemory>
    ensures { OnOk result (Adds (sum_text sum) text.old.items text.new.items) }
{
    match sum {
        SumSign::Plus => add_sign(text, Sign::Plus),
        SumSign::Minus => add_sign(text, Sign::Minus),
    }
}

fn add_product_sign(text: &mut Vec<u8>, product: ProductSign) -> Result<(), NoMemory>
    ensures { OnOk result (Adds (product_text product) text.old.items text.new.items) }
{
    match product {
        ProductSign::Times => add_sign(text, Sign::Times),
        ProductSign::Over => add_sign(text, Sign::Over),
    }
}

#[cycle(expression)]
pub fn add_expr(text: &mut Vec<u8>, expr: &Expr) -> Result<(), NoMemory>
    ensures { OnOk result (Adds (expr_text (expr_shape expr.now)) text.old.items text.new.items) }
{
    add_term(text, &expr.first)?;
    add_more_terms(text, &expr.rest)
}

#[cycle(expression)]
fn add_more_terms(text: &mut Vec<u8>, terms: &[MoreTerm]) -> Result<(), NoMemory>
    ensures { OnOk result (Adds
        (in_turn more_term_text (map more_term_shape terms.now)) text.old.items text.new.items) }
{
    for more in terms {
        add_sum_sign(text, more.sign)?;
        add_term(text, &more.term)?;
    }
    Ok(())
}

#[cycle(expression)]
fn add_term(text: &mut Vec<u8>, term: &Term2) -> Result<(), NoMemory>
    ensures { OnOk result (Adds (term2_text (term_shape term.now)) text.old.items text.new.items) }
{
    add_factor(text, &term.first)?;
    add_more_factors(text, &term.rest)
}

#[cycle(expression)]
fn add_more_factors(text: &mut Vec<u8>, factors: &[MoreFactor]) -> Result<(), NoMemory>
    ensures { OnOk result (Adds
        (in_turn more_factor_text (map more_factor_shape factors.now)) text.old.items
        text.new.items) }
{
    for more in factors {
        add_product_sign(text, more.sign)?;
        add_factor(text, &more.factor)?;
    }
    Ok(())
}

#[cycle(expression)]
fn add_factor(text: &mut Vec<u8>, factor: &Factor) -> Result<(), NoMemory>
    ensures { OnOk result (Adds (factor_text (factor_shape factor.now)) text.old.items text.new.items) }
{
    match factor {
        Factor::Number(number) => add_number(text, *number),
        Factor::Name(name) => add_name(text, name),
        Factor::Group { inner, .. } => add_group(text, inner),
    }
}

#[cycle(expression)]
fn add_group(text: &mut Vec<u8>, inner: &Expr) -> Result<(), NoMemory>
    ensures { OnOk result (Adds (group_text (expr_shape inner.now)) text.old.items text.new.items) }
{
    add_sign(text, Sign::OpenParenthesis)?;
    add_expr(text, inner)?;
    add_sign(text, Sign::CloseParenthesis)
}
