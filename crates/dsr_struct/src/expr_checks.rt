// The names in expressions.
ghost use Rattle.std.specs.Prelude.{◌≡◌, map, option_map};
ghost use Rattle.std.specs.Str.{bytes_eq};
ghost use Rattle.indexmap.specs.IndexMap.{get};
ghost use Rattle.dsr_tree.specs.Trees.{expr_shape, term_shape, factor_shape, more_term_shape, more_factor_shape, in_terms, in_factors};
ghost use Rattle.dsr_language_theory.specs.Declarations.{expr_faults, more_terms_faults, term_faults, more_factors_faults, factor_faults, maybe_expr_faults, is_number, is_number_term, is_number_factor, has_open_length};
ghost use Rattle.dsr_names.specs.Telling.{Finds};

use dsr_ir::Name;
use dsr_names::Told;
use dsr_tree::{Expr, Factor, MoreFactor, MoreTerm, Term2};
use indexmap::IndexMap;

/// The names of an expression that are no fixed fields.
#[cycle(expression)]
pub fn check_expr(told: &mut Told, fixed: &IndexMap<Name, u32>, expr: &Expr)
    ensures { Finds (expr_faults (get bytes_eq fixed.now) (expr_shape expr.now)) told.old.fault told.new.fault }
{
    check_term(told, fixed, &expr.first);
    check_more_terms(told, fixed, &expr.rest);
}

#[cycle(expression)]
fn check_more_terms(told: &mut Told, fixed: &IndexMap<Name, u32>, terms: &[MoreTerm])
    ensures { Finds (more_terms_faults (get bytes_eq fixed.now)
        (in_terms (map more_term_shape terms.now))) told.old.fault told.new.fault }
{
    for more in terms {
        check_term(told, fixed, &more.term);
    }
}

#[cycle(expression)]
fn check_term(told: &mut Told, fixed: &IndexMap<Name, u32>, term: &Term2)
    ensures { Finds (term_faults (get bytes_eq fixed.now) (term_shape term.now)) told.old.fault told.new.fault }
{
    check_factor(told, fixed, &term.first);
    check_more_factors(told, fixed, &term.rest);
}

#[cycle(expression)]
fn check_more_factors(told: &mut Told, fixed: &IndexMap<Name, u32>, factors: &[MoreFactor])
    ensures { Finds (more_factors_faults (get bytes_eq fixed.now)
        (in_factors (map more_factor_shape factors.now))) told.old.fault told.new.fault }
{
    for more in factors {
        check_factor(told, fixed, &more.factor);
    }
}

#[cycle(expression)]
fn check_factor(told: &mut Told, fixed: &IndexMap<Name, u32>, factor: &Factor)
    ensures { Finds (factor_faults (get bytes_eq fixed.now) (factor_shape factor.now))
        told.old.fault told.new.fault }
{
    match factor {
        Factor::Number(_) => (),
        Factor::Name(name) => told.note_unknown(fixed.get(&name.name).copied(), name),
        Factor::Group { inner, .. } => check_expr(told, fixed, inner),
    }
}

/// The names of an expression that may be left out.
pub fn check_maybe_expr(told: &mut Told, fixed: &IndexMap<Name, u32>, expr: &Option<Expr>)
    ensures { Finds (maybe_expr_faults (get bytes_eq fixed.now) (option_map expr_shape expr.now))
        told.old.fault told.new.fault }
{
    if let Some(expr) = expr {
        check_expr(told, fixed, expr);
    }
}

/// Whether an expression is a number, apart from parentheses.
#[cycle(number)]
pub fn is_number(expr: &Expr) -> bool
    ensures { result ≡ is_number (expr_shape expr.now) }
{
    expr.rest.is_empty() && is_number_term(&expr.first)
}

#[cycle(number)]
fn is_number_term(term: &Term2) -> bool
    ensures { result ≡ is_number_term (term_shape term.now) }
{
    term.rest.is_empty() && is_number_factor(&term.first)
}

#[cycle(number)]
fn is_number_factor(factor: &Factor) -> bool
    ensures { result ≡ is_number_factor (factor_shape factor.now) }
{
    match factor {
        Factor::Number(_) => true,
        Factor::Name(_) => false,
        Factor::Group { inner, .. } => is_number(inner),
    }
}

/// Whether a length is an expression other than a number.
pub fn has_open_length(length: &Option<Expr>) -> bool
    ensures { result ≡ has_open_length (option_map expr_shape length.now) }
{
    match length {
        Some(length) => !is_number(length),
        None => false,
    }
}
