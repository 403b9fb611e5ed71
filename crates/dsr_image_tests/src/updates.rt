// What steps leave of the bytes of images.
//
// A line `=== NAME` begins a case. The lines below it, up to the next such line, are its text, but
// for those that begin with `@ `: each of them is a step. Behind the sign stand, with one blank
// between them: the image in hexadecimal; the numbers of the constraint, the conjunction, the
// literal, the template and the update; the binding, `-` or one or two records with a comma
// between them; the record that is written; the index; the number of what is counted; and the
// fresh record, or `-`. Numbers count from 0. A record is its pool and its slot with a dot between
// them, where pool 0 is the head. Of a case its name is printed, and for each step a line with the
// bytes that it leaves.
ghost use Rattle.dsr_meaning.specs.Typed.{IsTyped};

mod applied;
mod checks;
mod numbers;
mod reading;

use crate::headings::heading_of;
use crate::updates::applied::applied;
use crate::updates::reading::{Given, given_of};
use anyhow::bail;
use dsr_goal::raw;
use dsr_ir::Spec;
use dsr_spec::specification;
use dsr_test_text::Lines;
use std::alloc::Global;

// The text of a case without its steps.
fn text_of(alloc: Global, body: &str) -> anyhow::Result<String> {
    let mut text = String::new(alloc);
    for line in body.split('\n') {
        if !line.starts_with("@ ") {
            text.push_str(line)?;
            text.push('\n')?;
        }
    }
    Ok(text)
}

fn add_step(lines: &mut Lines, alloc: Global, spec: &Spec, given: Given) -> anyhow::Result<()>
    requires typed { IsTyped spec.now }
{
    let step = given.step;
    let Ok(templates) = raw(alloc, spec, step.constraint, step.conj, step.literal) else {
        bail!("no memory");
    };
    let Some(template) = templates.get(given.template) else {
        bail!("no such template");
    };
    let bytes = applied(alloc, spec, template, &step, given.image)?;
    lines.word(hex::encode(alloc, &bytes)?.as_str());
    lines.word("\n");
    Ok(())
}

fn add_steps(lines: &mut Lines, alloc: Global, spec: &Spec, body: &str) -> anyhow::Result<()>
    requires typed { IsTyped spec.now }
{
    for line in body.split('\n') {
        if let Some(words) = line.strip_prefix("@ ") {
            add_step(lines, alloc, spec, given_of(alloc, words)?)?;
        }
    }
    Ok(())
}

fn add_case(lines: &mut Lines, alloc: Global, part: &str) -> anyhow::Result<()> {
    let (name, body) = heading_of(part)?;
    lines.word(name);
    lines.word("\n");
    let text = text_of(alloc, body)?;
    match specification(alloc, text.as_bytes()) {
        Ok(Some(spec)) => add_steps(lines, alloc, &spec, body),
        Ok(None) => bail!("{name} is no specification"),
        Err(_) => bail!("no memory"),
    }
}

/// The answers to the cases of a section.
pub fn add_cases(lines: &mut Lines, alloc: Global, section: &str) -> anyhow::Result<()> {
    for part in section.split("=== ").skip(1) {
        add_case(lines, alloc, part)?;
    }
    Ok(())
}
