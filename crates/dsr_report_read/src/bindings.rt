// Records and bindings at the front of a text.
ghost use Rattle.std.specs.Prelude.{◌≡◌};
ghost use Rattle.dsr_ir.specs.declared.constraints.Var.TheVariants.{First, Second};
ghost use Rattle.dsr_meaning.specs.Typed as typed;
ghost use Rattle.dsr_report_read.specs.Lenient as said;

use crate::numbers::{narrow, number_ahead, skip};
use dsr_answers::pool_name;
use dsr_ir::{Binding, Element, Quant, Spec, Var};
use dsr_schema::pool_of_var;

/// The record of this pool at the front, and what stands behind it.
pub fn element<'a>(spec: &Spec, pool: u32, text: &'a [u8]) -> (Element, &'a [u8])
    ensures elem { result.0 ≡ said.element_ahead spec.now pool text.now }
    ensures rest { result.1.now ≡ said.behind_element spec.now pool text.now }
{
    if pool == 0 {
        return (Element { pool: 0, slot: 0 }, skip(text, 4));
    }
    let (slot, rest) = number_ahead(skip(text, pool_name(spec, pool).len() + 1));
    let elem = Element {
        pool,
        slot: narrow(slot),
    };
    (elem, skip(rest, 1))
}

/// The pool of the first record that is bound.
pub fn first_pool(spec: &Spec, quant: Quant) -> Option<u32>
    ensures { result ≡ typed.pool_of_var spec.now.base quant First }
{
    pool_of_var(&spec.base, &quant, Var::First)
}

/// The pool of the second record that is bound.
pub fn second_pool(spec: &Spec, quant: Quant) -> Option<u32>
    ensures { result ≡ typed.pool_of_var spec.now.base quant Second }
{
    pool_of_var(&spec.base, &quant, Var::Second)
}

/// The binding at the front, and what stands behind it.
pub fn binding<'a>(spec: &Spec, quant: Quant, text: &'a [u8]) -> (Binding, &'a [u8])
    ensures binding { result.0 ≡ said.binding_ahead spec.now quant text.now }
    ensures rest { result.1.now ≡ said.behind_binding spec.now quant text.now }
{
    match quant {
        Quant::Once => (Binding::Once, skip(text, 1)),
        Quant::Each(_) => {
            let (elem, rest) = element(spec, first_pool(spec, quant).unwrap_or(0), text);
            (Binding::Each(elem), rest)
        }
        Quant::Pairs(_) => {
            let source = first_pool(spec, quant).unwrap_or(0);
            let (source, rest) = element(spec, source, skip(text, 1));
            let target = second_pool(spec, quant).unwrap_or(0);
            let (target, rest) = element(spec, target, skip(rest, 1));
            (Binding::Pair(source, target), skip(rest, 1))
        }
    }
}
