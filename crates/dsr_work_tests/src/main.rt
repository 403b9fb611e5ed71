//! Repairs an image over one that counts how often it is read, and tells how many steps that took,
//! and whether it was read too often.
//!
//! The standard input has the text of a specification whose first pool begins at byte 4, with a slot
//! of one byte for each of the number that stands there. The image has 200,000 of them, all zero.
#![tactic(auto)]

ghost use Rattle.dsr_meaning.specs.Typed.{IsTyped};

mod counted;

use counted::Counted;
use dsr_command_image::laid_out;
use dsr_command_plan::{Found, find};
use dsr_compile::{Reading, read};
use dsr_ir::Spec;
use dsr_log::Log;
use dsr_plan_theory::Plan;
use dsr_repair::repair;
use dsr_repair_theory::Outcome;
use dsr_test_text::Lines;
use std::alloc::{AllocError, Global};
use std::io;

/// How many slots the image has.
const SLOTS: u32 = 200_000;

/// How often an image may be read that needs a step a slot: a model that is built anew for each
/// step would read it more than a thousand times as often.
const MOST: u64 = 16_000_000;

// The most bytes of an image.
const MOST_BYTES: usize = 67_108_864;

// What a repair took.
#[derive(Clone, Copy)]
struct Cost {
    updates: u64,
    reads: u64,
}

// The image of so many slots.
fn image(alloc: Global) -> Result<Vec<u8>, AllocError> {
    let mut bytes = Vec::with_capacity(alloc, 200_004)?;
    bytes.extend_from_slice(&SLOTS.to_le_bytes())?;
    bytes.resize(200_004, 0)?;
    Ok(bytes)
}

// Repairs an image; nothing where it doesn't come to a consistent one.
fn work(alloc: Global, plan: &Plan, bytes: Vec<u8>) -> Option<Cost>
    requires { IsTyped plan.now.0 }
{
    if bytes.len() > MOST_BYTES {
        return None;
    }
    let Ok(layout) = laid_out(alloc, plan.spec(), &bytes) else {
        return None;
    };
    let mut counted = Counted::new(bytes);
    let mut log = Log::new(alloc);
    match repair(alloc, plan, &layout, &mut counted, &mut log) {
        Ok(Outcome::Consistent) => Some(Cost {
            updates: log.len() as u64,
            reads: counted.reads(),
        }),
        _ => None,
    }
}

fn plan_and_work(alloc: Global, spec: &Spec) -> Option<Cost>
    requires { IsTyped spec.now }
{
    let Ok(bytes) = image(alloc) else {
        return None;
    };
    match find(alloc, spec) {
        Ok(Found::Plan(choice)) => work(alloc, &Plan::adopt(spec, choice), bytes),
        _ => None,
    }
}

// What the repair takes by a specification's text; nothing where there is none.
fn cost_of(alloc: Global, text: &[u8]) -> Option<Cost> {
    let Ok(reading) = read(alloc, text) else {
        return None;
    };
    match &reading {
        Reading::Means(_, spec) => plan_and_work(alloc, spec),
        _ => None,
    }
}

// Tells the number of steps, and whether the image was read too often.
fn add_cost(lines: &mut Lines, cost: Option<Cost>) {
    let Some(cost) = cost else {
        lines.word("no repair\n");
        return;
    };
    lines.part("updates ", cost.updates);
    lines.part(", read within ", MOST);
    lines.word(if cost.reads <= MOST {
        ": true\n"
    } else {
        ": false\n"
    });
}

fn main(rt: HostRuntime) -> anyhow::Result<()> {
    let alloc = rt.alloc();
    let text = io::read_to_string(alloc, rt.stdin())?;
    let mut lines = Lines::new(alloc);
    add_cost(&mut lines, cost_of(alloc, text.as_bytes()));
    rt.print(lines.whole()?)?;
    Ok(())
}
