// The facts of which a word may be the text: of each symbol one.
ghost use Rattle.std.specs.Prelude.{◌≡◌};
ghost use Rattle.dsr_command_why.specs.Named as said;
ghost use Rattle.dsr_report_read.specs.Lenient as lenient;

use dsr_answers::{pool_name, symbol_name};
use dsr_ir::{Element, Fact, Rel, SetDecl, Spec, Symbol, Target};
use dsr_report_read::{number_ahead, skip};

// The number, where it has no more than 32 bits.
fn narrow(number: u64) -> u32
    ensures { result ≡ lenient.narrow number }
{
    if 4_294_967_295 < number {
        return 0;
    }
    number as u32
}

// The record of this pool at the front of a text, and what stands behind it.
fn element<'a>(spec: &Spec, pool: u32, text: &'a [u8]) -> (Element, &'a [u8])
    ensures elem { result.0 ≡ lenient.element_ahead spec.now pool text.now }
    ensures rest { result.1.now ≡ lenient.behind_element spec.now pool text.now }
{
    if pool == 0 {
        return (Element { pool: 0, slot: 0 }, skip(text, 4));
    }
    let (slot, rest) = number_ahead(skip(text, pool_name(spec, pool).len() + 1));
    let elem = Element {
        pool,
        slot: narrow(slot),
    };
    (elem, skip(rest, 1))
}

/// The record of which the word tells that it is a member of the set, where it tells that of one.
pub fn member_ahead(spec: &Spec, number: u32, set: &SetDecl, word: &[u8]) -> Element
    ensures { result ≡ said.member_ahead spec.now number set.now word.now }
{
    let rest = skip(word, symbol_name(spec, Symbol::Set(number)).len() + 1);
    let (elem, _) = element(spec, set.pool, rest);
    elem
}

// The target at the front of a text.
fn target_ahead(spec: &Spec, pool: Option<u32>, text: &[u8]) -> Target
    ensures { result ≡ said.target_ahead spec.now pool text.now }
{
    match pool {
        Some(pool) => {
            let (elem, _) = element(spec, pool, text);
            Target::Elem(elem)
        }
        None => {
            let (number, _) = number_ahead(text);
            Target::Num(number)
        }
    }
}

/// The pair of a relation that the word tells of, where it tells of one.
pub fn pair_ahead(spec: &Spec, number: u32, rel: &Rel, word: &[u8]) -> Fact
    ensures { result ≡ said.pair_ahead spec.now number rel.now word.now }
{
    let rest = skip(word, symbol_name(spec, Symbol::Rel(number)).len() + 2);
    let (source, rest) = element(spec, rel.source, rest);
    let target = target_ahead(spec, rel.target, skip(rest, 1));
    Fact::Pair(number, source, target)
}
