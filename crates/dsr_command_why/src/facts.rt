// What facts are called.
ghost use Rattle.std.specs.Prelude.{◌≡◌, ◌++◌, Decides, IfOk, OnOk};
ghost use Rattle.dsr_command_why.specs.Facts as said;

use dsr_answers::{push, push_element, push_number, symbol_name};
use dsr_ir::{Fact, NoMemory, Spec, Symbol, Target};
use std::alloc::Global;

// Appends what a target is called.
fn push_target(text: &mut Vec<u8>, spec: &Spec, target: Target) -> Result<(), NoMemory>
    ensures { OnOk result (text.new.items ≡ text.old.items ++ said.target_text spec.now target) }
{
    match target {
        Target::Elem(elem) => push_element(text, spec, elem),
        Target::Num(number) => push_number(text, number),
    }
}

/// Appends what a fact is called.
pub fn push_fact(text: &mut Vec<u8>, spec: &Spec, fact: &Fact) -> Result<(), NoMemory>
    ensures { OnOk result (text.new.items ≡ text.old.items ++ said.fact_text spec.now fact.now) }
{
    match *fact {
        Fact::Member(set, elem) => {
            push(text, symbol_name(spec, Symbol::Set(set)))?;
            push(text, b":")?;
            push_element(text, spec, elem)
        }
        Fact::Pair(rel, elem, target) => {
            push(text, symbol_name(spec, Symbol::Rel(rel)))?;
            push(text, b":<")?;
            push_element(text, spec, elem)?;
            push(text, b",")?;
            push_target(text, spec, target)?;
            push(text, b">")
        }
    }
}

/// Whether the word is the text of the fact.
pub fn is_text(alloc: Global, spec: &Spec, fact: &Fact, word: &[u8]) -> Result<bool, NoMemory>
    ensures { IfOk result (λ is. Decides is (said.fact_text spec.now fact.now ≡ word.now)) }
{
    let mut text = Vec::new(alloc);
    push_fact(&mut text, spec, fact)?;
    let same = text.as_slice() == word;
    Ok(same)
}
