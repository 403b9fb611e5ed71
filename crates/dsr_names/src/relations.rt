// Pools of what a quantifier binds, and whether they are those of a relation.
ghost use Rattle.std.specs.Prelude.{◌≡◌, is_none, option_map, false};
ghost use Rattle.std.specs.Option.{option_map_or};
ghost use Rattle.dsr_ir.specs.declared.constraints.Var.TheVariants as vars_of;
ghost use Rattle.dsr_meaning.specs.Typed.{pool_of_var};
ghost use Rattle.dsr_language_theory.specs.Constraints.{has_other_source, has_other_targets, has_other_target, values_others};

use crate::comparing::{disagree, is_other_target};
use dsr_ir::{Quant, Rel, Structures};

/// The pool of the first variable of a quantifier: that of a set's members, or of a relation's
/// sources.
pub fn first_pool(base: &Structures, quant: Quant) -> Option<u32>
    ensures { result ≡ pool_of_var base.now quant vars_of.First }
{
    match quant {
        Quant::Each(set) => match base.sets.items().get(set as usize) {
            Some(set) => Some(set.pool),
            None => None,
        },
        Quant::Pairs(rel) => match base.rels.items().get(rel as usize) {
            Some(rel) => Some(rel.source),
            None => None,
        },
        Quant::Once => None,
    }
}

/// The pool of the second one: that of a relation's targets.
pub fn second_pool(base: &Structures, quant: Quant) -> Option<u32>
    ensures { result ≡ pool_of_var base.now quant vars_of.Second }
{
    match quant {
        Quant::Pairs(rel) => match base.rels.items().get(rel as usize) {
            Some(rel) => rel.target,
            None => None,
        },
        _ => None,
    }
}

/// Whether a relation is known and gives numbers.
pub fn gives_numbers(rel: Option<&Rel>) -> bool
    ensures { result ≡ option_map_or (λ r. is_none r.target) (option_map (λ r. r.now) rel.entry) false }
{
    match rel {
        Some(rel) => rel.target.is_none(),
        None => false,
    }
}

/// Whether a relation has another source than a variable.
pub fn has_other_source(rel: Option<&Rel>, pool: Option<u32>) -> bool
    ensures { result ≡ has_other_source (option_map (λ r. r.now) rel.entry) pool }
{
    match rel {
        Some(rel) => disagree(pool, Some(rel.source)),
        None => false,
    }
}

/// Whether a relation has other targets than a variable.
pub fn has_other_targets(rel: Option<&Rel>, pool: Option<u32>) -> bool
    ensures { result ≡ has_other_targets (option_map (λ r. r.now) rel.entry) pool }
{
    match rel {
        Some(rel) => pool.is_some() && is_other_target(pool, rel.target),
        None => false,
    }
}

/// Whether a pair's second variable is no target of a relation.
pub fn has_other_target(rel: Option<&Rel>, pool: Option<u32>) -> bool
    ensures { result ≡ has_other_target (option_map (λ r. r.now) rel.entry) pool }
{
    match rel {
        Some(found) => found.target.is_none() || has_other_targets(rel, pool),
        None => false,
    }
}

/// Whether a relation gives no numbers, or not those of a variable.
pub fn values_others(rel: Option<&Rel>, pool: Option<u32>) -> bool
    ensures { result ≡ values_others (option_map (λ r. r.now) rel.entry) pool }
{
    match rel {
        Some(rel) => rel.target.is_some() || disagree(pool, Some(rel.source)),
        None => false,
    }
}
