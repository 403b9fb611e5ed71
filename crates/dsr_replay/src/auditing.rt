// A log, held against an image.
ghost use Rattle.std.specs.Prelude.{◌≡◌, ◌≢◌, ◌∷◌, [], IfErr, IfOk, length};
ghost use Rattle.dsr_image.specs.Images.{AreClaimed};
ghost use Rattle.dsr_plan_theory.specs.Plans.{IsPlan};
ghost use Rattle.dsr_replay.specs.Audits.{IsAuditFault, IsAudited, IsPartlyReplayed, IsReplayed};
ghost use Rattle.dsr_replay.specs.Steps.{IsUnlike};
ghost use Rattle.dsr_repair_theory.specs.Turns.{IsTurn};
ghost use Rattle.dsr_step_theory.specs.Images.{IsImageOf};

use crate::differences::first_difference;
use crate::faults::AuditFault;
use crate::replaying::replay;
use crate::texts::Texts;
use dsr_fixpoint::rebuild;
use dsr_image::ImageBytes;
use dsr_ir::{Layout, Spec};
use dsr_log::{Entries, EntryRef, Log};
use dsr_model::Model;
use dsr_plan_theory::Plan;
use dsr_repair::{Backing, Cursor, Draft, due_from};
use dsr_repair_theory::Turn;
use dsr_resolve::ResolvedRules;
use std::alloc::Global;

// The entry that comes next, where one is left.
fn next_entry<'a>(entries: &mut Entries<'a>) -> EntryRef<'a>
    requires { entries.old ≢ [] }
    ensures { entries.old ≡ result ∷ entries.new }
{
    match entries.next() {
        Some(entry) => entry,
        None => unreachable!(),
    }
}

// Makes the steps that are due, as long as they have the texts of the entries, and tells what is
// due behind all of them.
fn replay_all<I: ImageBytes>(
    alloc: Global,
    plan: &Plan,
    spec: &Spec,
    layout: &Layout,
    image: &mut I,
    log: &Log,
) -> Result<Turn, AuditFault>
    requires spec { spec.now ≡ plan.now.0 }
    requires planned { IsPlan plan.now.0 plan.now.1 }
    requires image { IsImageOf plan.now.0 layout.now (I.ImageBytes.bytes image.old) }
    requires claimed { AreClaimed (I.ImageBytes.claimed image.old) 0
        (length (I.ImageBytes.bytes image.old)) }
    ensures replayed { IfOk result (λ _. IsReplayed plan.now.0 plan.now.1 layout.now
        (I.ImageBytes.bytes image.old) log.now.entries (length log.now.entries)
        (I.ImageBytes.bytes image.new)) }
    ensures turn { IfOk result (IsTurn plan.now.0 plan.now.1 layout.now
        (I.ImageBytes.bytes image.new)) }
    ensures unlike { IfErr result (IsUnlike plan.now.0 plan.now.1 layout.now
        (I.ImageBytes.bytes image.old) log.now.entries) }
    ensures part { IsPartlyReplayed plan.now.0 plan.now.1 layout.now
        (I.ImageBytes.bytes image.old) log.now.entries (I.ImageBytes.bytes image.new) }
{
    let mut cursor = Cursor::new(alloc, plan.choice())?;
    let mut model = Model::prepare(alloc, spec, layout)?;
    let rules = &ResolvedRules::new(alloc, spec, layout)?;
    rebuild(&mut model, spec, layout, rules, image);
    let mut backing = Backing::new(alloc);
    let mut draft = Draft::new(alloc);
    let mut made = Log::new(alloc);
    let mut texts = Texts::new(alloc);
    let mut entries = log.entries();
    for place in 0..log.len() {
        let told = next_entry(&mut entries);
        replay(
            plan,
            layout,
            rules,
            image,
            &mut model,
            &mut backing,
            &mut cursor,
            &mut draft,
            &mut made,
            &mut texts,
            place as u64 + 1,
            &told,
        )?;
    }
    Ok(due_from(plan, layout, image, &model, &cursor))
}

/// Whether a log is that of the whole repair of an image by a plan, which leads to the fixed bytes.
/// It is replayed: each step that is due is made, as long as it has the text of its entry. Fields
/// that are named alike have one text. `Entry`, `Short` and `Fixed` tell the first reason why it
/// isn't, in this order; `NoMemory` says that memory was wanting. The image holds the bytes after
/// those of the steps that were made.
pub fn audit<I: ImageBytes>(
    alloc: Global,
    plan: &Plan,
    layout: &Layout,
    image: &mut I,
    log: &Log,
    fixed: &[u8],
) -> Result<(), AuditFault>
    requires image { IsImageOf plan.now.0 layout.now (I.ImageBytes.bytes image.old) }
    ensures audited { IfOk result (λ _. IsAudited plan.now.0 plan.now.1 layout.now
        (I.ImageBytes.bytes image.old) log.now.entries fixed.now) }
    ensures refused { IfErr result (IsAuditFault plan.now.0 plan.now.1 layout.now
        (I.ImageBytes.bytes image.old) log.now.entries fixed.now) }
    ensures part { IsPartlyReplayed plan.now.0 plan.now.1 layout.now
        (I.ImageBytes.bytes image.old) log.now.entries (I.ImageBytes.bytes image.new) }
{
    let length = image.len();
    image.claim(0, length)?;
    let turn = replay_all(alloc, plan, plan.spec(), layout, image, log)?;
    let Turn::Done = turn else {
        return Err(AuditFault::Short(log.len() as u64));
    };
    match first_difference(fixed, image) {
        Some(place) => Err(AuditFault::Fixed(place)),
        None => Ok(()),
    }
}
