// Whether a step can be made.
ghost use Rattle.std.specs.Prelude.{◌<◌, ◌^◌, All, IfSome};
ghost use Rattle.std.specs.Bool.{OnTrue};
ghost use Rattle.dsr_meaning.specs.Legal.{IsLegalLayout};
ghost use Rattle.dsr_step_theory.specs.Images.{IsFree};
ghost use Rattle.dsr_step_theory.specs.Steps as said;
ghost use Rattle.dsr_step_theory.specs.Steps.{CanWrite, IsSlot};

use crate::entries::has_entry;
use crate::updates::numbers::written_number;
use dsr_ir::{Cell, Element, Layout, Spec, Write};
use dsr_layout::{cell, pool_numbers};
use dsr_step_theory::Step;

// Whether a number fits a cell.
fn fits(number: u64, cell: &Cell) -> bool
    ensures { OnTrue result (number < 2 ^ cell.now.width) }
{
    match u32::from(cell.width) {
        64 => true,
        width => number.checked_shr(width) == Some(0),
    }
}

fn can_write(spec: &Spec, layout: &Layout, step: &Step, write: &Write) -> bool
    requires legal { IsLegalLayout layout.now }
    ensures { OnTrue result (CanWrite spec.now layout.now step.now write.now) }
{
    let index = if write.path.indexed { step.index } else { 0 };
    let Some(number) = written_number(spec, layout, step, write) else {
        return false;
    };
    if !has_entry(layout, step.elem, write.path.field, index) {
        return false;
    }
    fits(number, &cell(layout, step.elem, write.path.field, index))
}

/// Whether each of the writes can be made.
pub fn can_write_all(spec: &Spec, layout: &Layout, step: &Step, writes: &[Write]) -> bool
    requires legal { IsLegalLayout layout.now }
    ensures { OnTrue result (All (CanWrite spec.now layout.now step.now) writes.now) }
{
    for write in writes {
        if !can_write(spec, layout, step, write) {
            return false;
        }
    }
    true
}

fn is_free(spec: &Spec, write: &Write) -> bool
    ensures { OnTrue result (IsFree spec.now write.now) }
{
    let place = write.path.field;
    let Some(structure) = spec.base.structures.items().get(place.structure as usize) else {
        return false;
    };
    match structure.fields.items().get(place.field as usize) {
        Some(field) => !field.fixed,
        None => false,
    }
}

/// Whether none of the writes names a fixed field.
pub fn are_free(spec: &Spec, writes: &[Write]) -> bool
    ensures { OnTrue result (All (IsFree spec.now) writes.now) }
{
    for write in writes {
        if !is_free(spec, write) {
            return false;
        }
    }
    true
}

fn is_slot(layout: &Layout, elem: Element) -> bool
    ensures { OnTrue result (IsSlot layout.now elem) }
{
    match pool_numbers(layout, elem.pool) {
        Some(numbers) => u64::from(elem.slot) < numbers.count,
        None => false,
    }
}

/// Whether the fresh record, where there is one, is a slot of a pool.
pub fn can_be_fresh(layout: &Layout, fresh: Option<Element>) -> bool
    ensures { OnTrue result (IfSome fresh (IsSlot layout.now)) }
{
    match fresh {
        Some(elem) => is_slot(layout, elem),
        None => true,
    }
}
