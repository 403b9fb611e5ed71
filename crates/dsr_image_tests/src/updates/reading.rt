// Steps as lines give them.
use crate::bytes::bytes_of;
use crate::words::Words;
use dsr_ir::{Binding, Element};
use dsr_step_theory::Step;
use std::alloc::Global;

/// A step with the image on which it is made and the number of the template that has its update.
#[derive(Drop)]
pub struct Given {
    pub image: Vec<u8>,
    pub template: usize,
    pub step: Step,
}

fn fresh_of(words: &mut Words) -> Option<Element> {
    match words.word() {
        "-" => None,
        word => Some(words.record_of(word)),
    }
}

fn binding_of(words: &mut Words) -> Binding {
    let word = words.word();
    if word == "-" {
        return Binding::Once;
    }
    match word.split_once(',') {
        Some((first, second)) => Binding::Pair(words.record_of(first), words.record_of(second)),
        None => Binding::Each(words.record_of(word)),
    }
}

/// The step that the words of a line give.
pub fn given_of(alloc: Global, line: &str) -> anyhow::Result<Given> {
    let mut words = Words::new(line);
    let image = words.word();
    let (constraint, conj, literal) = (words.number(), words.number(), words.number());
    let template = words.number() as usize;
    let update = words.number();
    let binding = binding_of(&mut words);
    let written = words.word();
    let step = Step {
        constraint,
        binding,
        conj,
        literal,
        rule: 0,
        elem: words.record_of(written),
        index: words.large_number(),
        number: words.large_number(),
        fresh: fresh_of(&mut words),
        update,
    };
    words.end()?;
    Ok(Given {
        image: bytes_of(alloc, image)?,
        template,
        step,
    })
}
