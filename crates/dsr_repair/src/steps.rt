// One step.
ghost use Rattle.std.specs.Prelude.{◌≡◌, IfOk, IfSome, OnErr, option_map};
ghost use Rattle.dsr_image.specs.Images.{StayClaimed};
ghost use Rattle.dsr_repair.specs.Cursors.{IsCursorOn};
ghost use Rattle.dsr_repair.specs.Planned.{chosen_update};
ghost use Rattle.dsr_repair.specs.Stepping.{Brings, IsModelled, IsMoved, TakesTurn, state};
ghost use Rattle.dsr_repair_theory.specs.Turns.{IsTurn};
ghost use Rattle.dsr_resolve.specs.Rules.{AreResolved};
ghost use Rattle.dsr_step_theory.specs.Images.{FixedFieldsStay};
ghost use Rattle.dsr_supported.specs.Supported.{IsSupportFor};

use crate::backing::Backing;
use crate::bindings::Violation;
use crate::cursors::Cursor;
use crate::drafts::Draft;
use crate::dues::due_from;
use crate::making::make;
use crate::renewing::renew;
use dsr_image::ImageBytes;
use dsr_ir::{Layout, NoMemory, Update};
use dsr_log::Log;
use dsr_model::Model;
use dsr_plan_theory::{Plan, Way};
use dsr_repair_theory::Turn;
use dsr_resolve::ResolvedRules;
use dsr_step_theory::Step;

// The update of the plan that a step makes.
fn update_of<'a>(plan: &'a Plan, step: &Step) -> Option<&'a Update>
    ensures { option_map (λ u. u.now) result ≡ chosen_update plan.now.1 step.now }
{
    let row = plan.choice().rows.items().get(step.constraint as usize)?;
    let ways = row.ways.items().get(step.conj as usize)?;
    match ways.items().get(step.literal as usize)? {
        Way::By(_, template) => template.updates.items().get(step.update as usize),
        Way::Test => None,
    }
}

/// Makes the step that is due, pushes its entry, makes the model that of the new bytes, and moves
/// the cursor to the binding for which the step was made: nothing before that is violated now
/// either. Where nothing is due, or a supply is empty, all stays as it is; so it does where memory
/// is wanting, but that more bytes may be claimed. Nothing can fail once a byte is written. What
/// the draft held is of no matter. What supports the model goes with it; where that wants memory,
/// models are built anew.
pub fn step<I: ImageBytes>(
    plan: &Plan,
    layout: &Layout,
    rules: &ResolvedRules,
    image: &mut I,
    model: &mut Model,
    backing: &mut Backing,
    cursor: &mut Cursor,
    draft: &mut Draft,
    log: &mut Log,
) -> Result<Turn, NoMemory>
    requires modelled { IsModelled plan.now.0 layout.now (I.ImageBytes.bytes image.old) model.old }
    requires rules { AreResolved plan.now.0 layout.now rules.now }
    requires cursor { IsCursorOn plan.now.0 plan.now.1 layout.now (I.ImageBytes.bytes image.old) cursor.old }
    requires backed { IfSome backing.old.support (IsSupportFor plan.now.0 layout.now
        (I.ImageBytes.bytes image.old) rules.now model.old) }
    ensures turn { IfOk result (IsTurn plan.now.0 plan.now.1 layout.now (I.ImageBytes.bytes image.old)) }
    ensures taken { IfOk result (TakesTurn plan.now.0 plan.now.1 layout.now
        (state (I.ImageBytes.bytes image.old) log.old.entries model.old)
        (state (I.ImageBytes.bytes image.new) log.new.entries model.new)) }
    ensures brings { IfOk result (Brings plan.now.0 plan.now.1 layout.now (I.ImageBytes.bytes image.old)
        (I.ImageBytes.bytes image.new)) }
    ensures stays { OnErr result (state (I.ImageBytes.bytes image.new) log.new.entries model.new
        ≡ state (I.ImageBytes.bytes image.old) log.old.entries model.old) }
    ensures fixed { FixedFieldsStay plan.now.0.base (I.ImageBytes.bytes image.old)
        (I.ImageBytes.bytes image.new) }
    ensures modelled { IsModelled plan.now.0 layout.now (I.ImageBytes.bytes image.new) model.new }
    ensures cursor { IsCursorOn plan.now.0 plan.now.1 layout.now (I.ImageBytes.bytes image.new) cursor.new }
    ensures moved { IfOk result (IsMoved cursor.old cursor.new) }
    ensures rests { OnErr result (cursor.new ≡ cursor.old) }
    ensures kept { StayClaimed (I.ImageBytes.claimed image.old) (I.ImageBytes.claimed image.new) }
    ensures backed { IfSome backing.new.support (IsSupportFor plan.now.0 layout.now
        (I.ImageBytes.bytes image.new) rules.now model.new) }
{
    let turn = due_from(plan, layout, image, model, cursor);
    let Turn::Step(step) = turn else {
        return Ok(turn);
    };
    let Some(update) = update_of(plan, &step) else {
        unreachable!();
    };
    backing.prepare(plan, layout, rules, update);
    make(plan.spec(), layout, &step, update, image, draft, log)?;
    renew(
        model,
        backing,
        plan.spec(),
        layout,
        rules,
        image,
        update,
        &step,
    );
    cursor.last = Some(Violation {
        constraint: step.constraint,
        binding: step.binding,
    });
    Ok(turn)
}
