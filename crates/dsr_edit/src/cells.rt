// The cells that writes name.
ghost use Rattle.std.specs.Prelude.{◌≡◌, ◌<◌, ◌^◌, nat_lt, Decides, IfErr, IfOk, MatchOption, Some, length, slice_get};
ghost use Rattle.dsr_edit.specs.Edits.{IsEntryPlace, IsUnwritable, MayWrite, MayWriteSome};
ghost use Rattle.dsr_edit.specs.Updates.{AreReady, writes_of};
ghost use Rattle.dsr_ir.specs.declared.declarations.Field as fields;
ghost use Rattle.dsr_ir.specs.declared.layouts.Cell as cells;
ghost use Rattle.dsr_ir.specs.declared.layouts.FieldPlace as places;
ghost use Rattle.dsr_meaning.specs.Cells as widths;
ghost use Rattle.dsr_meaning.specs.Instances as meaning;
ghost use Rattle.dsr_meaning.specs.Typed.{IsTyped};
ghost use Rattle.dsr_report_read.specs.Forms.{IsPoolField};
ghost use Rattle.dsr_model.specs.Views.{IsLayoutFor};
ghost use Rattle.dsr_meaning.specs.Legal.{IsLegalLayout};

use crate::faults::EditFault;
use crate::groups::CellWrite;
use crate::updates::{CellPut, update_of};
use dsr_ir::{Cell, Field, FieldPlace, Layout, Spec, Width};
use dsr_layout::{cell, field_place, record_count};
use dsr_report_read::{has_name, is_of_pool};
use dsr_schema::{declared_field, width_bits};
use std::alloc::Global;

// Whether a value fits an entry.
fn fits(width: Width, value: u64) -> bool
    ensures { result ≡ nat_lt value (2 ^ widths.width_bits width) }
{
    let bits = width_bits(width);
    bits >= 64 || value >> bits == 0
}

// The field, where records of the write's pool have it.
fn field_of<'a>(spec: &'a Spec, write: &CellWrite) -> Option<&'a Field>
    requires typed { IsTyped spec.now }
    ensures { MatchOption result
        ((field : fields.Field) → IsPoolField spec.now.base write.now.elem.pool write.now.field field → ⊥)
        (λ field. IsPoolField spec.now.base write.now.elem.pool write.now.field field.now) }
{
    let Some(field) = declared_field(&spec.base, write.field) else {
        return None;
    };
    if !has_name(field) {
        return None;
    }
    if !is_of_pool(&spec.base, write.elem.pool, write.field.structure) {
        return None;
    }
    Some(field)
}

// Whether the record is there.
fn has_record(layout: &Layout, write: &CellWrite) -> bool
    ensures { Decides result
        (write.now.elem.slot < meaning.record_count layout.now write.now.elem.pool) }
{
    u64::from(write.elem.slot) < record_count(layout, write.elem.pool)
}

// The place of the field, where it has the entry.
fn entry_place(layout: &Layout, field: &Field, write: &CellWrite) -> Option<FieldPlace>
    ensures { MatchOption result
        ((place : places.FieldPlace) → IsEntryPlace layout.now field.now write.now place → ⊥)
        (IsEntryPlace layout.now field.now write.now) }
{
    if field.len.is_some() != write.index.is_some() {
        return None;
    }
    let Some(place) = field_place(layout, write.field) else {
        return None;
    };
    if write.index.unwrap_or(0) < place.length.unwrap_or(1) {
        Some(place)
    } else {
        None
    }
}

/// The cell that a write names, where it isn't one of a fixed field and the value fits it.
pub fn cell_for(spec: &Spec, layout: &Layout, write: &CellWrite) -> Option<Cell>
    requires typed { IsTyped spec.now }
    requires layout { IsLayoutFor spec.now layout.now }
    requires legal { IsLegalLayout layout.now }
    ensures { MatchOption result ((cell : cells.Cell) → MayWrite spec.now layout.now write.now cell → ⊥)
        (MayWrite spec.now layout.now write.now) }
{
    let Some(field) = field_of(spec, write) else {
        return None;
    };
    if field.fixed {
        return None;
    }
    if !has_record(layout, write) {
        return None;
    }
    let Some(place) = entry_place(layout, field, write) else {
        return None;
    };
    if !fits(place.width, write.value) {
        return None;
    }
    Some(cell(layout, write.elem, write.field, write.index.unwrap_or(0)))
}

/// Whether a write names a cell of a field that isn't fixed, and its value fits it.
pub fn can_write(spec: &Spec, layout: &Layout, write: &CellWrite) -> bool
    requires typed { IsTyped spec.now }
    requires layout { IsLayoutFor spec.now layout.now }
    requires legal { IsLegalLayout layout.now }
    ensures { Decides result (MayWriteSome spec.now layout.now write.now) }
{
    match cell_for(spec, layout, write) {
        Some(_) => true,
        None => false,
    }
}

// The write at a place.
fn write_at(group: &[CellWrite], place: usize) -> CellWrite
    requires { place < length group.now }
    ensures { slice_get group.now place ≡ Some result }
{
    group[place]
}

/// The writes of a group as they are put, where each of them can be made. `Cell` tells the first one
/// that can't.
pub fn puts_of(
    alloc: Global,
    spec: &Spec,
    layout: &Layout,
    group: &[CellWrite],
) -> Result<Vec<CellPut>, EditFault>
    requires typed { IsTyped spec.now }
    requires layout { IsLayoutFor spec.now layout.now }
    requires legal { IsLegalLayout layout.now }
    ensures writes { IfOk result (λ puts. writes_of puts.items ≡ group.now) }
    ensures ready { IfOk result (λ puts. AreReady spec.now layout.now puts.items) }
    ensures refused { IfErr result (IsUnwritable spec.now layout.now group.now) }
{
    let mut puts = Vec::with_capacity(alloc, group.len())?;
    for place in 0..group.len() {
        let write = write_at(group, place);
        let Some(cell) = cell_for(spec, layout, &write) else {
            return Err(EditFault::Cell(place as u64));
        };
        let update = update_of(alloc, &write)?;
        puts.push(CellPut {
            write,
            cell,
            update,
        })?;
    }
    Ok(puts)
}
