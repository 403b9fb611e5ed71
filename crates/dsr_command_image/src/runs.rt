// A repair of an image that is held whole, told as it goes.
ghost use Rattle.std.specs.Prelude.{◌≡◌, ◌+◌, ◌++◌, IfOk, length};
ghost use Rattle.dsr_command_image.specs.Runs.{IsToldRun};
ghost use Rattle.dsr_report.specs.Reports.{entries_behind};
ghost use Rattle.dsr_step_theory.specs.Images.{IsImageOf};

use dsr_image::Whole;
use dsr_ir::{Layout, NoMemory, Spec};
use dsr_log::Log;
use dsr_plan_theory::Plan;
use dsr_repair::{ROUND, Repair};
use dsr_repair_theory::Outcome;
use dsr_report::push_entries;
use std::alloc::Global;

/// A repair that ended.
#[derive(Drop)]
pub struct Run {
    /// The lines that tell its steps.
    pub text: Vec<u8>,
    /// How many steps there are.
    pub count: u64,
    /// The image after them.
    pub image: Whole,
    /// How it ended.
    pub outcome: Outcome,
}

// Appends the lines of a log behind those of so many entries; how many are told then. More than
// 64 bits count have no room in memory.
fn tell_log(text: &mut Vec<u8>, spec: &Spec, before: u64, log: &Log) -> Result<u64, NoMemory>
    ensures count { IfOk result (λ count. count ≡ before + length log.now.entries) }
    ensures told { IfOk result (λ _. text.new.items
        ≡ text.old.items ++ entries_behind spec.now before log.now.entries) }
{
    let Some(count) = before.checked_add(log.len() as u64) else {
        return Err(NoMemory);
    };
    push_entries(text, spec, before, log)?;
    Ok(count)
}

/// Makes the steps that are due on an image, until none is left, and tells each.
pub fn repair_whole(
    alloc: Global,
    plan: &Plan,
    layout: &Layout,
    image: Whole,
) -> Result<Run, NoMemory>
    requires image { IsImageOf plan.now.0 layout.now image }
    ensures run { IfOk result (IsToldRun plan.now.0 plan.now.1 layout.now image) }
{
    let mut repair = Repair::begin(alloc, plan, layout, &image)?;
    let mut fixed = image;
    let mut log = Log::new(alloc);
    let mut text = Vec::new(alloc);
    let mut count = 0;
    'rounds: loop {
        log.clear();
        let ended = repair.go_on(plan, layout, &mut fixed, &mut log, ROUND)?;
        count = tell_log(&mut text, plan.spec(), count, &log)?;
        if let Some(outcome) = ended {
            return Ok(Run {
                text,
                count,
                image: fixed,
                outcome,
            });
        }
    }
}
