// The writes of a step, made in place, with what they set.
ghost use Rattle.std.specs.Prelude.{◌≡◌, ◌<◌, ◌≤◌, ◌+◌, ◌++◌, [], ◌∷◌, All, IfSome, IsSome, MatchOption, OnOk, length, option_to_list, vec_capacity, vec_len};
ghost use Rattle.dsr_image.specs.Images.{IsCellClaimed};
ghost use Rattle.dsr_ir.specs.Layouts as layouts;
ghost use Rattle.dsr_meaning.specs.Instances as meaning;
ghost use Rattle.dsr_meaning.specs.Legal.{IsLegalLayout};
ghost use Rattle.dsr_repair_theory.specs.Entries.{AreSet};
ghost use Rattle.dsr_step_theory.specs.Puts.{ArePut};
ghost use Rattle.dsr_step_theory.specs.Resets.{reset_puts};
ghost use Rattle.dsr_step_theory.specs.Steps as steps;
ghost use Rattle.dsr_step_theory.specs.Steps.{CanWrite};
ghost use Rattle.dsr_update.specs.Claims.{CanReset, IsSlotClaimed};

use dsr_image::ImageBytes;
use dsr_ir::{Layout, NoMemory, Spec, Write};
use dsr_repair_theory::CellSet;
use dsr_step_theory::Step;
use dsr_update::{is_wanted, picked_number, reset, written_cell};

// Makes one write, unless what it wants holds already, and tells what it set.
fn set<I: ImageBytes>(
    spec: &Spec,
    layout: &Layout,
    step: &Step,
    write: &Write,
    image: &mut I,
) -> Option<CellSet>
    requires legal { IsLegalLayout layout.now }
    requires declared { IfSome (meaning.referred_pool spec.now write.now.path.field)
        (λ p. IsSome (layouts.pool_numbers layout.now p)) }
    requires can { CanWrite spec.now layout.now step.now write.now }
    requires long { length (I.ImageBytes.bytes image.old) ≡ layout.now.length }
    requires claimed { IfSome (steps.written_cell layout.now step.now write.now)
        (IsCellClaimed (I.ImageBytes.claimed image.old)) }
    ensures set { AreSet spec.now layout.now step.now (write.now ∷ [])
        (I.ImageBytes.bytes image.old) (I.ImageBytes.bytes image.new) (option_to_list result) }
    ensures long { length (I.ImageBytes.bytes image.new) ≡ length (I.ImageBytes.bytes image.old) }
    ensures kept { I.ImageBytes.claimed image.new ≡ I.ImageBytes.claimed image.old }
{
    let cell = written_cell(layout, step, write);
    let Some(number) = picked_number(spec, layout, step, write.path.field, write.pick) else {
        unreachable!();
    };
    let old = image.get(&cell);
    if is_wanted(spec, layout, write, number, old) {
        return None;
    }
    image.put(&cell, number);
    Some(CellSet {
        elem: step.elem,
        path: write.path,
        index: if write.path.indexed { step.index } else { 0 },
        old,
        new: number,
    })
}

// Appends what one write set, if anything. Takes no memory.
fn push_set(sets: &mut Vec<CellSet>, made: Option<CellSet>)
    requires room { vec_len sets.old < vec_capacity sets.old }
    ensures items { sets.new.items ≡ sets.old.items ++ option_to_list made }
    ensures longer { vec_len sets.new ≤ vec_len sets.old + 1 }
    ensures room { vec_capacity sets.new ≡ vec_capacity sets.old }
{
    if let Some(set) = made {
        sets.push_reserved(set);
    }
}

/// No values, with room for so many.
pub fn make_room(sets: &mut Vec<CellSet>, count: usize) -> Result<(), NoMemory>
    ensures none { sets.new.items ≡ [] }
    ensures room { OnOk result (vec_len sets.new + count ≤ vec_capacity sets.new) }
{
    sets.clear();
    sets.reserve(count)?;
    Ok(())
}

/// Makes the writes in order, each unless what it wants holds already, and tells what they set.
pub fn set_all<I: ImageBytes>(
    spec: &Spec,
    layout: &Layout,
    step: &Step,
    writes: &[Write],
    image: &mut I,
    sets: &mut Vec<CellSet>,
)
    requires legal { IsLegalLayout layout.now }
    requires declared { All (λ w. IfSome (meaning.referred_pool spec.now w.path.field)
        (λ p. IsSome (layouts.pool_numbers layout.now p))) writes.now }
    requires can { All (CanWrite spec.now layout.now step.now) writes.now }
    requires long { length (I.ImageBytes.bytes image.old) ≡ layout.now.length }
    requires claimed { All (λ w. IfSome (steps.written_cell layout.now step.now w)
        (IsCellClaimed (I.ImageBytes.claimed image.old))) writes.now }
    requires none { sets.old.items ≡ [] }
    requires room { vec_len sets.old + length writes.now ≤ vec_capacity sets.old }
    ensures set { AreSet spec.now layout.now step.now writes.now (I.ImageBytes.bytes image.old)
        (I.ImageBytes.bytes image.new) sets.new.items }
    ensures long { length (I.ImageBytes.bytes image.new) ≡ length (I.ImageBytes.bytes image.old) }
    ensures kept { I.ImageBytes.claimed image.new ≡ I.ImageBytes.claimed image.old }
{
    for write in writes {
        push_set(sets, set(spec, layout, step, write, image));
    }
}

/// Resets the fresh record of a step, if it takes one.
pub fn reset_fresh<I: ImageBytes>(spec: &Spec, layout: &Layout, step: &Step, image: &mut I)
    requires can { IfSome step.now.fresh (λ e. CanReset spec.now layout.now e
        (length (I.ImageBytes.bytes image.old))) }
    requires claimed { IfSome step.now.fresh
        (IsSlotClaimed (I.ImageBytes.claimed image.old) layout.now) }
    ensures put { MatchOption step.now.fresh
        (I.ImageBytes.bytes image.new ≡ I.ImageBytes.bytes image.old)
        (λ e. ArePut (reset_puts spec.now.base layout.now e) (I.ImageBytes.bytes image.old)
        (I.ImageBytes.bytes image.new)) }
    ensures long { length (I.ImageBytes.bytes image.new) ≡ length (I.ImageBytes.bytes image.old) }
    ensures kept { I.ImageBytes.claimed image.new ≡ I.ImageBytes.claimed image.old }
{
    if let Some(fresh) = step.fresh {
        reset(spec, layout, fresh, image);
    }
}
