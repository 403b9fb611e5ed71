// What quantifiers bind.
ghost use Rattle.std.specs.Prelude.{◌≡◌};
ghost use Rattle.dsr_names.specs.Tables.{known_of};
ghost use Rattle.dsr_language_theory.specs.TypedConstraints.{bound_symbol, quant_of};

use crate::known::Known;
use dsr_ir::{Name, Quant};
use dsr_tree::{Binder, Quantifier};

// What a quantifier binds, where its set or relation is known.
fn bound_symbol(known: &Known<'_>, binder: &Binder, name: &Name) -> Option<Quant>
    ensures { result ≡ bound_symbol (known_of known.now) binder.now name.now }
{
    match binder {
        Binder::One(_) => match known.set(name) {
            Some(set) => Some(Quant::Each(set)),
            None => None,
        },
        Binder::Pair { .. } => match known.relation(name) {
            Some(relation) => Some(Quant::Pairs(relation)),
            None => None,
        },
    }
}

/// What the quantifier of a constraint binds, where that is known.
pub fn quant_of(known: &Known<'_>, quantifier: &Option<Quantifier>) -> Option<Quant>
    ensures { result ≡ quant_of (known_of known.now) quantifier.now }
{
    match quantifier {
        Some(quantifier) => bound_symbol(known, &quantifier.binder, &quantifier.symbol.name),
        None => Some(Quant::Once),
    }
}
