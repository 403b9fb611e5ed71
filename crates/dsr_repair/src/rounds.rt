// A repair in rounds of steps.
ghost use Rattle.std.specs.Prelude.{IfOk};
ghost use Rattle.dsr_plan_theory.specs.Plans.{IsPlan};
ghost use Rattle.dsr_repair.specs.Rounds.{EndsRound, IsRound, IsUnderWay};
ghost use Rattle.dsr_step_theory.specs.Images.{IsImageOf};

use crate::backing::Backing;
use crate::cursors::Cursor;
use crate::drafts::Draft;
use crate::steps::step;
use dsr_fixpoint::rebuild;
use dsr_image::ImageBytes;
use dsr_ir::{Layout, NoMemory};
use dsr_log::Log;
use dsr_model::Model;
use dsr_plan_theory::Plan;
use dsr_repair_theory::{Outcome, Turn};
use dsr_resolve::ResolvedRules;
use std::alloc::Global;

/// How many steps a round has in a whole repair: the log of no more takes memory at a time.
pub const ROUND: usize = 4_096;

/// A repair under way: rules on its layout, the model of the bytes that were reached, where the
/// next step is looked for, what supports the model, and room to draft a step.
pub struct Repair {
    rules: ResolvedRules,
    model: Model,
    backing: Backing,
    cursor: Cursor,
    draft: Draft,
}

impl Drop for Repair {
    fn drop(self) {
        let Repair {
            rules: _,
            model: _,
            backing: _,
            cursor: _,
            draft: _,
        } = self;
    }
}

impl Repair {
    /// Begins a repair. No step is made yet.
    pub fn begin<I: ImageBytes>(
        alloc: Global,
        plan: &Plan,
        layout: &Layout,
        image: &I,
    ) -> Result<Repair, NoMemory>
        requires image { IsImageOf plan.now.0 layout.now (I.ImageBytes.bytes image.now) }
        ensures { IfOk result (IsUnderWay plan.now.0 plan.now.1 layout.now (I.ImageBytes.bytes image.now)) }
    {
        let spec = plan.spec();
        let cursor = Cursor::new(alloc, plan.choice())?;
        let mut model = Model::prepare(alloc, spec, layout)?;
        let rules = ResolvedRules::new(alloc, spec, layout)?;
        rebuild(&mut model, spec, layout, &rules, image);
        Ok(Repair {
            rules,
            model,
            backing: Backing::new(alloc),
            cursor,
            draft: Draft::new(alloc),
        })
    }

    /// Makes the steps that are due, one after the other, until none is left, a supply is empty, or
    /// so many were made: then the answer is none. The log gets all that were made, also where
    /// memory is wanting.
    pub fn go_on<I: ImageBytes>(
        &mut self,
        plan: &Plan,
        layout: &Layout,
        image: &mut I,
        log: &mut Log,
        most: usize,
    ) -> Result<Option<Outcome>, NoMemory>
        requires under_way { IsUnderWay plan.now.0 plan.now.1 layout.now
            (I.ImageBytes.bytes image.old) self.old }
        ensures under_way { IsUnderWay plan.now.0 plan.now.1 layout.now
            (I.ImageBytes.bytes image.new) self.new }
        ensures round { IsRound plan.now.0 plan.now.1 layout.now (I.ImageBytes.bytes image.old)
            log.old.entries (I.ImageBytes.bytes image.new) log.new.entries }
        ensures ends { IfOk result (EndsRound plan.now.0 plan.now.1 layout.now
            (I.ImageBytes.bytes image.new) most log.old.entries log.new.entries) }
    {
        for _made in 0..most {
            match step(
                plan,
                layout,
                &self.rules,
                image,
                &mut self.model,
                &mut self.backing,
                &mut self.cursor,
                &mut self.draft,
                log,
            )? {
                Turn::Done => return Ok(Some(Outcome::Consistent)),
                Turn::Empty(need) => return Ok(Some(Outcome::Empty(need))),
                Turn::Step(_) => {}
            }
        }
        Ok(None)
    }
}
