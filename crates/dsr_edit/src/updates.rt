// Writes that are to be put, each seen as that of a step by an update: what such a step touches
// rests on its field, its record and its entry alone.
ghost use Rattle.std.specs.Prelude.{IfOk};
ghost use Rattle.dsr_edit.specs.Updates.{IsStepOf, IsUpdateOf};

use crate::groups::CellWrite;
use dsr_ir::{At, Binding, Cell, NoMemory, Path, Pick, Place, Seq, Update, Write};
use dsr_step_theory::Step;
use std::alloc::Global;

/// A write that is to be put.
#[derive(Drop)]
pub struct CellPut {
    pub write: CellWrite,
    /// The cell that it names.
    pub cell: Cell,
    /// An update of its field.
    pub update: Update,
}

/// An update of the write's field.
pub fn update_of(alloc: Global, write: &CellWrite) -> Result<Update, NoMemory>
    ensures { IfOk result (IsUpdateOf write.now.field) }
{
    let path = Path {
        field: write.field,
        indexed: write.index.is_some(),
    };
    let mut writes = Vec::with_capacity(alloc, 1)?;
    writes.push(Write {
        path,
        pick: Pick::Num(write.value),
        wants: None,
    })?;
    Ok(Update {
        rule: 0,
        place: Place::Head,
        at: At::Scalar,
        writes: Seq::new(writes),
        fresh: None,
    })
}

/// A step at the write's record and entry.
pub fn step_of(write: &CellWrite) -> Step
    ensures { IsStepOf write.now result }
{
    Step {
        constraint: 0,
        binding: Binding::Once,
        conj: 0,
        literal: 0,
        rule: 0,
        elem: write.elem,
        index: write.index.unwrap_or(0),
        number: 0,
        fresh: None,
        update: 0,
    }
}
