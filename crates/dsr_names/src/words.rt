// What rules and constraints have in common: variables, comparisons, and numbers that were found.
ghost use Rattle.std.specs.Prelude.{◌≡◌};
ghost use Rattle.dsr_language_theory.specs.Rules.{var_place};
ghost use Rattle.dsr_language_theory.specs.TypedConstraints.{typed_bound};
ghost use Rattle.dsr_language_theory.specs.TypedRules.{number_of, typed_compare};

use dsr_ir::Op;
use dsr_tree::{Bound, Compare, Var};

/// The place of a variable.
pub fn var_place(var: &Var) -> u64
    ensures { result ≡ var_place var.now }
{
    match var {
        Var::Head { place } => *place,
        Var::Name(name) => name.place,
    }
}

/// The number that was found; 0 where there is none.
pub fn number_of(found: Option<u32>) -> u32
    ensures { result ≡ number_of found }
{
    found.unwrap_or(0)
}

/// A comparison of values.
pub fn typed_compare(compare: Compare) -> Op
    ensures { result ≡ typed_compare compare }
{
    match compare {
        Compare::Equal => Op::Eq,
        Compare::Differs => Op::Ne,
        Compare::Less => Op::Lt,
        Compare::AtMost => Op::Le,
        Compare::Greater => Op::Gt,
        Compare::AtLeast => Op::Ge,
    }
}

/// A comparison of sizes.
pub fn typed_bound(bound: Bound) -> Op
    ensures { result ≡ typed_bound bound }
{
    match bound {
        Bound::AtMost => Op::Le,
        Bound::AtLeast => Op::Ge,
        Bound::Equal => Op::Eq,
    }
}
