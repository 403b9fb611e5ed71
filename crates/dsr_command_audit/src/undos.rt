// A repair, taken back.
ghost use Rattle.std.specs.Prelude.{◌≤◌, IfOk, length};
ghost use Rattle.dsr_command_audit.specs.Undone.{IsUndoOf, ending_of};
ghost use Rattle.dsr_meaning.specs.Typed.{IsTyped};

use crate::texts::{misread_told, undo_fault_told, undone_told};
use dsr_image::Whole;
use dsr_ir::{NoMemory, Spec};
use dsr_report_read::read;
use dsr_script::Told;
use std::alloc::Global;

/// What comes of taking a repair back.
#[derive(Drop)]
pub enum Undone {
    /// The bytes that are to be saved, and what is told then.
    Saved(Vec<u8>, Told),
    /// The answer that nothing is taken back, since the report can't be read or doesn't fit the
    /// bytes.
    Unsaved(Told),
}

/// Takes back what a report tells of a repair that led to the fixed bytes.
pub fn undo(alloc: Global, spec: &Spec, fixed: Vec<u8>, report: &[u8]) -> Result<Undone, NoMemory>
    requires typed { IsTyped spec.now }
    requires small { length fixed.items ≤ 67108864 }
    ensures { IfOk result (λ undone. IsUndoOf spec.now fixed.items report.now (ending_of undone)) }
{
    let log = match read(alloc, spec, report) {
        Ok(log) => log,
        Err(fault) => return Ok(Undone::Unsaved(misread_told(alloc, fault)?)),
    };
    let mut image = Whole::new(fixed);
    match dsr_replay::undo(spec, &mut image, &log) {
        Ok(()) => {
            let told = undone_told(alloc, &log)?;
            Ok(Undone::Saved(image.into_bytes(), told))
        }
        Err(fault) => Ok(Undone::Unsaved(undo_fault_told(alloc, fault)?)),
    }
}
