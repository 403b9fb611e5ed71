// Records, pool by pool and slot by slot.
ghost use Rattle.std.specs.Prelude.{◌≡◌, ◌<◌, ◌≤◌, ◌+◌, true, Decides, IfOk, OnOk, Some, length, slice_get};
ghost use Rattle.dsr_fixpoint.specs.Models.{IsModelOf, IsPreparedFor};
ghost use Rattle.dsr_ir.specs.declared.tuples.Element as tuples;
ghost use Rattle.dsr_lost.specs.Lost.{AreLost, AreLostBefore, Holds, IsFree, start};
ghost use Rattle.dsr_meaning.specs.Legal.{IsLegalLayout};
ghost use Rattle.dsr_meaning.specs.Typed.{IsTyped};

use dsr_image::ImageBytes;
use dsr_ir::{Element, Fact, Layout, NoMemory, SetDecl, Spec};
use dsr_layout::record_count;
use dsr_model::Model;
use std::alloc::Global;

// Whether the set isn't a complement, and has the member.
#[inline(always)]
fn holds(model: &Model, number: u32, set: &SetDecl, elem: Element) -> bool
    requires ordered { model.now.ordered ≡ true }
    ensures { Decides result (Holds model.now number set.now elem) }
{
    match set.except {
        Some(_) => false,
        None => model.has(&Fact::Member(number, elem)),
    }
}

// Whether no set has the member, but for complements.
#[inline(always)]
fn is_free(model: &Model, spec: &Spec, elem: Element) -> bool
    requires ordered { model.now.ordered ≡ true }
    requires few { length spec.now.base.sets < 4294967296 }
    ensures { Decides result (IsFree spec.now model.now elem) }
{
    for (number, set) in spec.base.sets.items().iter().enumerate() {
        if holds(model, number as u32, set, elem) {
            return false;
        }
    }
    true
}

// Appends the lost slots of a pool.
fn push_lost(
    lost: &mut Vec<Element>,
    model: &Model,
    spec: &Spec,
    layout: &Layout,
    pool: u32,
) -> Result<(), NoMemory>
    requires ordered { model.now.ordered ≡ true }
    requires few { length spec.now.base.sets < 4294967296 }
    requires legal { IsLegalLayout layout.now }
    requires of_pool { 0 < pool }
    requires declared { pool ≤ length spec.now.base.pools }
    requires before { AreLostBefore spec.now layout.now model.now lost.old.items (start pool) }
    ensures { OnOk result (AreLostBefore spec.now layout.now model.now lost.new.items
        (start (pool + 1))) }
{
    for slot in 0..record_count(layout, pool) {
        let elem = Element {
            pool,
            slot: slot as u32,
        };
        if is_free(model, spec, elem) {
            lost.push(elem)?;
        }
    }
    Ok(())
}

/// The slots that are members of no set but of complements, in order of pools and slots, by the
/// model of an image. The image is there for the clauses alone.
pub fn lost<I: ImageBytes>(
    alloc: Global,
    model: &Model,
    spec: &Spec,
    layout: &Layout,
    _image: &I,
) -> Result<Vec<Element>, NoMemory>
    requires typed { IsTyped spec.now }
    requires legal { IsLegalLayout layout.now }
    requires prepared { IsPreparedFor spec.now layout.now model.now }
    requires model { IsModelOf spec.now layout.now (I.bytes _image.now) model.now }
    ensures { IfOk result (λ es. AreLost spec.now layout.now (I.bytes _image.now) es.items) }
{
    let mut lost = Vec::new(alloc);
    for pool in 0..spec.base.pools.items().len() {
        push_lost(&mut lost, model, spec, layout, pool as u32 + 1)?;
    }
    Ok(lost)
}
