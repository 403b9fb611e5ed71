// Groups of writes.
ghost use Rattle.std.specs.Prelude.{◌≡◌, IfOk, map};

use dsr_ir::{Element, FieldRef, NoMemory};
use std::alloc::Global;

/// A value that is to be written into a field of a record.
#[derive(Clone, Copy)]
pub struct CellWrite {
    /// The record.
    pub elem: Element,
    /// The field, which the record has by its pool's structure, or by that of a set.
    pub field: FieldRef,
    /// The entry of an array, counted from 0; none exactly where the field is no array.
    pub index: Option<u64>,
    /// The value: a number, or the code of a slot.
    pub value: u64,
}

/// The fields that a group writes.
pub fn fields_of(alloc: Global, group: &[CellWrite]) -> Result<Vec<FieldRef>, NoMemory>
    ensures { IfOk result (λ fields. fields.items ≡ map (λ write. write.field) group.now) }
{
    Ok(group.iter().map(|write| write.field).collect(alloc)?)
}

/// The values that a group writes.
pub fn values_of(alloc: Global, group: &[CellWrite]) -> Result<Vec<u64>, NoMemory>
    ensures { IfOk result (λ values. values.items ≡ map (λ write. write.value) group.now) }
{
    Ok(group.iter().map(|write| write.value).collect(alloc)?)
}
