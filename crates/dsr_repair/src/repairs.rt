// A whole repair.
ghost use Rattle.std.specs.Prelude.{◌≡◌, ◌≤◌, [], IfOk, length};
ghost use Rattle.dsr_bound_laws.specs.Bounds.{bound};
ghost use Rattle.dsr_plan_theory.specs.Plans.{IsPlan};
ghost use Rattle.dsr_repair_theory.specs.Runs.{IsPartRun};
ghost use Rattle.dsr_repair_theory.specs.Turns.{IsOutcome};
ghost use Rattle.dsr_step_theory.specs.Images.{FixedFieldsStay, IsImageOf};

use crate::rounds::{ROUND, Repair};
use dsr_image::ImageBytes;
use dsr_ir::{Layout, NoMemory};
use dsr_log::Log;
use dsr_plan_theory::Plan;
use dsr_repair_theory::Outcome;
use std::alloc::Global;

// Makes round after round, until no step is left. That this ends is due to the bound.
fn make_rounds<I: ImageBytes>(
    alloc: Global,
    plan: &Plan,
    layout: &Layout,
    image: &mut I,
    log: &mut Log,
) -> Result<Outcome, NoMemory>
    requires planned { IsPlan plan.now.0 plan.now.1 }
    requires image { IsImageOf plan.now.0 layout.now (I.ImageBytes.bytes image.old) }
    requires empty { log.old.entries ≡ [] }
    ensures steps { IsPartRun plan.now.0 plan.now.1 layout.now (I.ImageBytes.bytes image.old)
        log.new.entries (I.ImageBytes.bytes image.new) }
    ensures ends { IfOk result (IsOutcome plan.now.0 plan.now.1 layout.now (I.ImageBytes.bytes image.new)) }
{
    let mut repair = Repair::begin(alloc, plan, layout, image)?;
    'rounds: loop {
        if let Some(outcome) = repair.go_on(plan, layout, image, log, ROUND)? {
            return Ok(outcome);
        }
    }
}

/// Makes the steps that are due, one after the other, until none is left: the image is consistent,
/// or the supply of a fresh record that the next step needs is empty. The log has all steps that
/// were made, also where memory is wanting. There are no more of them than the specification and
/// the image's length bound.
pub fn repair<I: ImageBytes>(
    alloc: Global,
    plan: &Plan,
    layout: &Layout,
    image: &mut I,
    log: &mut Log,
) -> Result<Outcome, NoMemory>
    requires image { IsImageOf plan.now.0 layout.now (I.ImageBytes.bytes image.old) }
    requires empty { log.old.entries ≡ [] }
    ensures steps { IsPartRun plan.now.0 plan.now.1 layout.now (I.ImageBytes.bytes image.old)
        log.new.entries (I.ImageBytes.bytes image.new) }
    ensures short { length log.new.entries ≤ bound plan.now.0 (length (I.ImageBytes.bytes image.old)) }
    ensures ends { IfOk result (IsOutcome plan.now.0 plan.now.1 layout.now (I.ImageBytes.bytes image.new)) }
    ensures image { IsImageOf plan.now.0 layout.now (I.ImageBytes.bytes image.new) }
    ensures fixed { FixedFieldsStay plan.now.0.base (I.ImageBytes.bytes image.old)
        (I.ImageBytes.bytes image.new) }
{
    let _spec = plan.spec();
    make_rounds(alloc, plan, layout, image, log)
}
