// The lines of chains.
ghost use Rattle.std.specs.Prelude.{◌≡◌, ◌+◌, ◌++◌, IfOk, OnOk, length, reverse};
ghost use Rattle.dsr_chain_laws.specs.Shortest.{FirstChain};
ghost use Rattle.dsr_command_why.specs.Whys as said;
ghost use Rattle.dsr_command_why.specs.Whys.{AreLines, GivesSome, PushesLine};
ghost use Rattle.dsr_meaning.specs.Legal.{IsLegalLayout};
ghost use Rattle.dsr_resolve.specs.Rules.{AreResolved};
ghost use Rattle.dsr_step_theory.specs.Images.{IsImageOf};

use crate::facts::push_fact;
use dsr_answers::{push, push_element, push_number};
use dsr_image::Whole;
use dsr_ir::{Fact, Instance, Layout, NoMemory, Span, Spec};
use dsr_resolve::{Resolved, ResolvedRules};
use std::alloc::Global;

// Appends the entry of the index, where the rule has one.
fn push_index(text: &mut Vec<u8>, span: Span, index: u64) -> Result<(), NoMemory>
    ensures { OnOk result (text.new.items ≡ text.old.items ++ said.index_text span index) }
{
    match span {
        Span::Single => Ok(()),
        Span::Array(_) | Span::Slots(_) => {
            push(text, b" index ")?;
            push_number(text, index)
        }
    }
}

// Appends the number of the line, and where the instance is.
fn push_place(
    text: &mut Vec<u8>,
    spec: &Spec,
    number: u64,
    instance: &Instance,
    span: Span,
) -> Result<(), NoMemory>
    ensures { OnOk result (text.new.items ≡ text.old.items
        ++ said.place_text spec.now number instance.now span) }
{
    push_number(text, number)?;
    push(text, b" rule ")?;
    push_number(text, u64::from(instance.rule) + 1)?;
    push(text, b" at ")?;
    push_element(text, spec, instance.elem)?;
    push_index(text, span, instance.index)
}

// Appends the line of an instance that gives the fact.
fn push_line(
    text: &mut Vec<u8>,
    spec: &Spec,
    number: u64,
    instance: &Instance,
    span: Span,
    fact: &Fact,
) -> Result<(), NoMemory>
    ensures { OnOk result (text.new.items ≡ text.old.items
        ++ said.instance_line spec.now number instance.now span fact.now) }
{
    push_place(text, spec, number, instance, span)?;
    push(text, b" gives ")?;
    push_fact(text, spec, fact)?;
    push(text, b"\n")
}

// Appends the line of an instance, with the fact that it gives.
fn push_instance(
    text: &mut Vec<u8>,
    spec: &Spec,
    layout: &Layout,
    image: &Whole,
    rules: &[Resolved],
    number: u64,
    instance: &Instance,
) -> Result<(), NoMemory>
    requires image { IsImageOf spec.now layout.now image.now }
    requires legal { IsLegalLayout layout.now }
    requires rules { AreResolved spec.now layout.now rules.now }
    requires gives { GivesSome spec.now layout.now image.now instance.now }
    ensures { OnOk result (PushesLine spec.now layout.now image.now number instance.now
        text.old.items text.new.items) }
{
    let rule = &rules[instance.rule as usize];
    let Some(fact) = rule.fact(image, instance.elem, instance.index) else {
        unreachable!();
    };
    let span = spec.rules.items()[instance.rule as usize].span;
    push_line(text, spec, number, instance, span, &fact)
}

/// The lines of the instances of a chain.
pub fn lines(
    alloc: Global,
    spec: &Spec,
    layout: &Layout,
    image: &Whole,
    fact: &Fact,
    chain: &[Instance],
) -> Result<Vec<u8>, NoMemory>
    requires image { IsImageOf spec.now layout.now image.now }
    requires legal { IsLegalLayout layout.now }
    requires chain { FirstChain spec.now layout.now image.now (reverse chain.now) fact.now }
    ensures { IfOk result (λ text. AreLines spec.now layout.now image.now chain.now text.items) }
{
    let rules = ResolvedRules::new(alloc, spec, layout)?;
    let mut text = Vec::new(alloc);
    for (place, instance) in chain.iter().enumerate() {
        push_instance(
            &mut text,
            spec,
            layout,
            image,
            rules.items(),
            place as u64 + 1,
            instance,
        )?;
    }
    Ok(text)
}
