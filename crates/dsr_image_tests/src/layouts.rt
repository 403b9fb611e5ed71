// What is told of the layouts of specifications on images, or the numbers of the pools, and what
// references, codes and cells mean there.
//
// A line `=== NAME IMAGE` begins a case, whose image stands in hexadecimal; `+N` behind the digits
// stands for N more bytes of 0. The lines below it, up to one that begins with `@ `, are the text
// of its declarations. Each line that begins with `@ ` asks for something, and is printed with its
// answer, but for those that give a name to a rule or a constraint:
//
//     @ rule NAME: premise SET single|array FIELD|slots POOL gives ..
//     @ constraint NAME: once|each SET|pairs RELATION, LITERAL and .. or ..
//     @ told RULES : CONSTRAINTS         what is told of the layout with these, by their names
//     @ cell record R field F entry N    a cell with its value
//     @ reference pool P value N         what the value of a reference means
//     @ code pool P slot S               the code of a slot
//
// Sets, relations and structures are numbers from 0 on, pools from 1 on, and pool 0 is the head.
// A record is its pool and its slot with a dot between them, a field its structure and its place
// there.
mod answers;
mod cells;
mod constraints;
mod declared;
mod questions;
mod references;
mod rules;

use crate::bytes::bytes_of;
use crate::headings::{heading_of, name_and_image};
use crate::layouts::answers::{Case, add_answer};
use dsr_image::Whole;
use dsr_test_text::Lines;
use std::alloc::Global;

// The bytes of an image as its heading gives them.
fn image_of(alloc: Global, word: &str) -> anyhow::Result<Vec<u8>> {
    let (digits, zeros) = word.split_once('+').unwrap_or((word, "0"));
    let zeros: usize = zeros.parse()?;
    let mut bytes = bytes_of(alloc, digits)?;
    for _ in 0..zeros {
        bytes.push(0)?;
    }
    Ok(bytes)
}

fn add_answers(lines: &mut Lines, alloc: Global, case: &Case) -> anyhow::Result<()> {
    for line in case.body.split('\n') {
        if let Some(question) = line.strip_prefix("@ ") {
            add_answer(lines, alloc, case, question)?;
        }
    }
    Ok(())
}

fn add_case(lines: &mut Lines, alloc: Global, part: &str) -> anyhow::Result<()> {
    let (heading, body) = heading_of(part)?;
    let (name, image) = name_and_image(heading)?;
    let bytes = image_of(alloc, image)?;
    let image = Whole::new(Vec::from_slice(alloc, &bytes)?);
    let case = Case {
        text: body.split("\n@ ").next().unwrap_or(""),
        body,
        bytes: &bytes,
        image: &image,
    };
    lines.word(name);
    lines.word("\n");
    add_answers(lines, alloc, &case)
}

/// The answers to the cases of a section.
pub fn add_cases(lines: &mut Lines, alloc: Global, section: &str) -> anyhow::Result<()> {
    for part in section.split("=== ").skip(1) {
        add_case(lines, alloc, part)?;
    }
    Ok(())
}
