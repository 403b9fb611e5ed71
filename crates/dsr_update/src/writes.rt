// Where a write writes, and whether it is needed.
ghost use Rattle.std.specs.Prelude.{◌≡◌, ◌≤◌, ◌+◌, ◌*◌, Decides, IfSome, IsSome, Some};
ghost use Rattle.dsr_ir.specs.Layouts as layouts;
ghost use Rattle.dsr_meaning.specs.Cells.{IsFieldCell};
ghost use Rattle.dsr_meaning.specs.Instances as meaning;
ghost use Rattle.dsr_meaning.specs.Legal.{HasEntry, IsLegalLayout};
ghost use Rattle.dsr_step_theory.specs.Steps as said;
ghost use Rattle.dsr_step_theory.specs.Steps.{IsWanted};

use crate::values::{meets, picked_number};
use dsr_ir::{Cell, Layout, Spec, Write};
use dsr_layout::cell;
use dsr_schema::referred_pool;
use dsr_step_theory::Step;

fn written_index(step: &Step, write: &Write) -> u64
    ensures { result ≡ said.written_index step.now write.now }
{
    if write.path.indexed { step.index } else { 0 }
}

/// The cell that is written.
pub fn written_cell(layout: &Layout, step: &Step, write: &Write) -> Cell
    requires legal { IsLegalLayout layout.now }
    requires entry { HasEntry layout.now step.now.elem write.now.path.field
        (said.written_index step.now write.now) }
    ensures cell { said.written_cell layout.now step.now write.now ≡ Some result }
    ensures form { IsFieldCell result }
    ensures within { result.bit + result.width ≤ 8 * layout.now.length }
{
    cell(
        layout,
        step.elem,
        write.path.field,
        written_index(step, write),
    )
}

/// Whether what the write wants holds of the value.
pub fn is_wanted(spec: &Spec, layout: &Layout, write: &Write, number: u64, value: u64) -> bool
    requires legal { IsLegalLayout layout.now }
    requires declared { IfSome (meaning.referred_pool spec.now write.now.path.field)
        (λ p. IsSome (layouts.pool_numbers layout.now p)) }
    ensures { Decides result (IsWanted spec.now layout.now write.now number value) }
{
    match write.wants {
        Some((test, wanted)) => {
            meets(layout, referred_pool(spec, write.path.field), test, value) == wanted
        }
        None => value == number,
    }
}
