// Expressions with their names resolved.
ghost use Rattle.std.specs.Prelude.{◌≡◌, map, option_map, IfOk};
ghost use Rattle.std.specs.Str.{bytes_eq};
ghost use Rattle.indexmap.specs.IndexMap.{get};
ghost use Rattle.dsr_tree.specs.Trees.{expr_shape, term_shape, factor_shape, more_term_shape, more_factor_shape, in_terms, in_factors};
ghost use Rattle.dsr_language_theory.specs.Tables.{number_in, sum_of, product_of, typed_expr, typed_sum, typed_term, typed_product, typed_factor};
ghost use Rattle.dsr_struct.specs.Known.{Fit};

use dsr_ir::{Expr, Name, NoMemory};
use dsr_tree::{self, Factor, MoreFactor, MoreTerm, PlacedName, ProductSign, SumSign, Term2};
use indexmap::IndexMap;
use std::alloc::Global;

/// The number that a name stands for.
pub fn number_in(numbers: &IndexMap<Name, u32>, name: &PlacedName) -> u32
    requires { Fit (get bytes_eq numbers.now) }
    ensures { result ≡ number_in (get bytes_eq numbers.now) name.now }
{
    numbers.get(&name.name).copied().unwrap_or(0)
}

fn sum_of(alloc: Global, sign: SumSign, left: Expr, right: Expr) -> Result<Expr, NoMemory>
    ensures { IfOk result (λ e. e ≡ sum_of sign left right) }
{
    match sign {
        SumSign::Plus => Expr::sum(alloc, left, right),
        SumSign::Minus => Expr::less(alloc, left, right),
    }
}

fn product_of(alloc: Global, sign: ProductSign, left: Expr, right: Expr) -> Result<Expr, NoMemory>
    ensures { IfOk result (λ e. e ≡ product_of sign left right) }
{
    match sign {
        ProductSign::Times => Expr::times(alloc, left, right),
        ProductSign::Over => Expr::over(alloc, left, right),
    }
}

/// An expression, with each name as the number of the head's field.
#[cycle(expression)]
pub fn typed_expr(
    alloc: Global,
    fixed: &IndexMap<Name, u32>,
    expr: &dsr_tree::Expr,
) -> Result<Expr, NoMemory>
    requires { Fit (get bytes_eq fixed.now) }
    ensures { IfOk result (λ e. e ≡ typed_expr (get bytes_eq fixed.now) (expr_shape expr.now)) }
{
    let first = typed_term(alloc, fixed, &expr.first)?;
    typed_sum(alloc, fixed, &expr.rest, first)
}

#[cycle(expression)]
fn typed_sum(
    alloc: Global,
    fixed: &IndexMap<Name, u32>,
    rest: &[MoreTerm],
    first: Expr,
) -> Result<Expr, NoMemory>
    requires { Fit (get bytes_eq fixed.now) }
    ensures { IfOk result (λ e. e
        ≡ typed_sum (get bytes_eq fixed.now) first (in_terms (map more_term_shape rest.now))) }
{
    let mut sum = first;
    for more in rest {
        let term = typed_term(alloc, fixed, &more.term)?;
        sum = sum_of(alloc, more.sign, sum, term)?;
    }
    Ok(sum)
}

#[cycle(expression)]
fn typed_term(alloc: Global, fixed: &IndexMap<Name, u32>, term: &Term2) -> Result<Expr, NoMemory>
    requires { Fit (get bytes_eq fixed.now) }
    ensures { IfOk result (λ e. e ≡ typed_term (get bytes_eq fixed.now) (term_shape term.now)) }
{
    let first = typed_factor(alloc, fixed, &term.first)?;
    typed_product(alloc, fixed, &term.rest, first)
}

#[cycle(expression)]
fn typed_product(
    alloc: Global,
    fixed: &IndexMap<Name, u32>,
    rest: &[MoreFactor],
    first: Expr,
) -> Result<Expr, NoMemory>
    requires { Fit (get bytes_eq fixed.now) }
    ensures { IfOk result (λ e. e
        ≡ typed_product (get bytes_eq fixed.now) first
        (in_factors (map more_factor_shape rest.now))) }
{
    let mut product = first;
    for more in rest {
        let factor = typed_factor(alloc, fixed, &more.factor)?;
        product = product_of(alloc, more.sign, product, factor)?;
    }
    Ok(product)
}

#[cycle(expression)]
fn typed_factor(
    alloc: Global,
    fixed: &IndexMap<Name, u32>,
    factor: &Factor,
) -> Result<Expr, NoMemory>
    requires { Fit (get bytes_eq fixed.now) }
    ensures { IfOk result (λ e. e ≡ typed_factor (get bytes_eq fixed.now) (factor_shape factor.now)) }
{
    match factor {
        Factor::Number(number) => Ok(Expr::number(number.number)),
        Factor::Name(name) => Ok(Expr::fixed(number_in(fixed, name))),
        Factor::Group { inner, .. } => typed_expr(alloc, fixed, inner),
    }
}

/// An expression that may be left out.
pub fn typed_maybe_expr(
    alloc: Global,
    fixed: &IndexMap<Name, u32>,
    expr: &Option<dsr_tree::Expr>,
) -> Result<Option<Expr>, NoMemory>
    requires { Fit (get bytes_eq fixed.now) }
    ensures { IfOk result (λ e. e
        ≡ option_map (typed_expr (get bytes_eq fixed.now)) (option_map expr_shape expr.now)) }
{
    match expr {
        Some(expr) => Ok(Some(typed_expr(alloc, fixed, expr)?)),
        None => Ok(None),
    }
}
