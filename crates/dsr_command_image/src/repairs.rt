// A repair of an image, as it is answered.
ghost use Rattle.std.specs.Prelude.{◌≤◌, IfErr, IfOk, length};
ghost use Rattle.dsr_layout.specs.Telling.{Tells};
ghost use Rattle.dsr_meaning.specs.Legal.{IsLegalLayout};
ghost use Rattle.dsr_meaning.specs.Refusals.{refusals};
ghost use Rattle.dsr_meaning.specs.Typed.{IsTyped};
ghost use Rattle.dsr_command_image.specs.Repaired.{IsRepairOf, ending_of};
ghost use Rattle.dsr_step_theory.specs.Images.{IsImageOf};
ghost use Rattle.dsr_meaning.specs.Limits.{most_bytes};

use crate::runs::repair_whole;
use crate::texts::{need_told, report_told};
use dsr_answers::layout_refused;
use dsr_image::Whole;
use dsr_ir::{Layout, NoMemory, Spec};
use dsr_layout::{LayoutFault, layout};
use dsr_plan_theory::Plan;
use dsr_repair_theory::Outcome;
use dsr_script::Told;
use std::alloc::Global;

/// What comes of a repair.
#[derive(Drop)]
pub enum Repaired {
    /// The bytes that are to be saved, and what is told then.
    Saved(Vec<u8>, Told),
    /// The answer that nothing is repaired, since the image has no layout or a supply is empty.
    Unsaved(Told),
}

/// The layout of a specification on an image. Where it is refused, the fault is the first of the
/// least kind, by order of declaration.
pub fn laid_out(alloc: Global, spec: &Spec, image: &[u8]) -> Result<Layout, LayoutFault>
    requires typed { IsTyped spec.now }
    requires small { length image.now ≤ most_bytes }
    ensures image { IfOk result (λ layout. IsImageOf spec.now layout image.now) }
    ensures legal { IfOk result IsLegalLayout }
    ensures refused { IfErr result (Tells (refusals spec.now image.now)) }
{
    layout(alloc, spec, image)
}

/// Repairs an image by a plan.
pub fn repair(alloc: Global, plan: &Plan, image: Vec<u8>) -> Result<Repaired, NoMemory>
    requires typed { IsTyped plan.now.0 }
    requires small { length image.items ≤ most_bytes }
    ensures { IfOk result (λ r. IsRepairOf plan.now.0 plan.now.1 image.items (ending_of r)) }
{
    let spec = plan.spec();
    let layout = match laid_out(alloc, spec, &image) {
        Ok(layout) => layout,
        Err(fault) => return Ok(Repaired::Unsaved(layout_refused(alloc, spec, fault)?)),
    };
    let run = repair_whole(alloc, plan, &layout, Whole::new(image))?;
    match run.outcome {
        Outcome::Consistent => {
            let told = report_told(run.text, run.count)?;
            Ok(Repaired::Saved(run.image.into_bytes(), told))
        }
        Outcome::Empty(need) => {
            Ok(Repaired::Unsaved(need_told(run.text, spec, run.count, &need)?))
        }
    }
}
