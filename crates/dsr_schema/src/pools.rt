// Pools, and those of a quantifier's variables.
ghost use Rattle.std.specs.Prelude.{◌≡◌, option_map};
ghost use Rattle.dsr_meaning.specs.Typed as typed;

use dsr_ir::{Pool, Quant, Structures, Var};

/// The declaration of a pool, counted from 1.
pub fn pool_at(base: &Structures, pool: u32) -> Option<&Pool>
    ensures { option_map (λ d. d.now) result ≡ typed.pool_at base.now pool }
{
    let number = pool.checked_sub(1)?;
    base.pools.items().get(number as usize)
}

/// The pool of a variable's record, 0 for the head; none where the quantifier hasn't got the
/// variable.
pub fn pool_of_var(base: &Structures, quant: &Quant, var: Var) -> Option<u32>
    ensures { result ≡ typed.pool_of_var base.now quant.now var }
{
    match (var, *quant) {
        (Var::Head, _) => Some(0),
        (Var::First, Quant::Each(set)) => Some(base.sets.items().get(set as usize)?.pool),
        (Var::First, Quant::Pairs(rel)) => Some(base.rels.items().get(rel as usize)?.source),
        (Var::Second, Quant::Pairs(rel)) => base.rels.items().get(rel as usize)?.target,
        _ => None,
    }
}
