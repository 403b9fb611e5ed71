// What a group of writes needs before its first write.
ghost use Rattle.std.specs.Prelude.{IfErr, IfOk};
ghost use Rattle.dsr_edit.specs.Edits.{IsUnwritable};
ghost use Rattle.dsr_edit.specs.Prepared.{IsPreparedGroup};
ghost use Rattle.dsr_meaning.specs.Legal.{IsLegalLayout};
ghost use Rattle.dsr_meaning.specs.Typed.{IsTyped};
ghost use Rattle.dsr_model.specs.Views.{IsLayoutFor};

use crate::cells::puts_of;
use crate::faults::EditFault;
use crate::groups::{CellWrite, fields_of, values_of};
use crate::updates::CellPut;
use dsr_affected::affected_constraints;
use dsr_ir::{Layout, Spec};
use std::alloc::Global;

/// All that a group needs, before its first write.
#[derive(Drop)]
pub struct Prepared {
    /// The writes with their cells.
    pub puts: Vec<CellPut>,
    /// Room for the values that take the writes back.
    pub was: Vec<u64>,
    /// The constraints on which the writes may bear.
    pub order: Vec<u32>,
}

/// Judges the writes of a group, and takes the memory that it needs.
pub fn prepare(
    alloc: Global,
    spec: &Spec,
    layout: &Layout,
    group: &[CellWrite],
) -> Result<Prepared, EditFault>
    requires typed { IsTyped spec.now }
    requires layout { IsLayoutFor spec.now layout.now }
    requires legal { IsLegalLayout layout.now }
    ensures prepared { IfOk result (IsPreparedGroup spec.now layout.now group.now) }
    ensures refused { IfErr result (IsUnwritable spec.now layout.now group.now) }
{
    let puts = puts_of(alloc, spec, layout, group)?;
    let fields = fields_of(alloc, group)?;
    let order = affected_constraints(alloc, spec, &fields)?;
    let was = values_of(alloc, group)?;
    Ok(Prepared { puts, was, order })
}
