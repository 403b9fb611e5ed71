// The bytes that a step may change.
ghost use Rattle.std.specs.Prelude.{◌≡◌, ◌≤◌, ◌++◌, All, IfSome, OnOk, option_and_then, option_to_list};
ghost use Rattle.dsr_repair.specs.Spans.{AreWithin, IsWithin, IsWriteSpan, step_spans};
ghost use Rattle.dsr_repair.specs.Spans as said;
ghost use Rattle.dsr_meaning.specs.Legal.{HasEntry, IsLegalLayout};
ghost use Rattle.dsr_step_theory.specs.Steps.{IsSlot, written_index};

use crate::spans::{Span, cell_span};
use dsr_ir::{Element, Layout, NoMemory, Write};
use dsr_layout::pool_numbers;
use dsr_step_theory::Step;
use dsr_update::written_cell;

// The slot of a record.
fn slot_span(layout: &Layout, elem: Element) -> Option<Span>
    requires legal { IsLegalLayout layout.now }
    requires slot { IsSlot layout.now elem }
    ensures span { result ≡ said.slot_span layout.now elem }
    ensures within { IfSome result (IsWithin layout.now.length) }
{
    let numbers = pool_numbers(layout, elem.pool)?;
    let start = numbers.start + u64::from(elem.slot) * numbers.slot;
    Some(Span {
        start,
        end: start + numbers.slot,
    })
}

// The slot of a fresh record, if there is one.
fn fresh_span(layout: &Layout, fresh: Option<Element>) -> Option<Span>
    requires legal { IsLegalLayout layout.now }
    requires slot { IfSome fresh (IsSlot layout.now) }
    ensures span { result ≡ option_and_then (said.slot_span layout.now) fresh }
    ensures within { IfSome result (IsWithin layout.now.length) }
{
    slot_span(layout, fresh?)
}

// Appends a span, if there is one.
fn push_span(spans: &mut Vec<Span>, span: Option<Span>) -> Result<(), NoMemory>
    ensures { OnOk result (spans.new.items ≡ spans.old.items ++ option_to_list span) }
{
    if let Some(span) = span {
        spans.push(span)?;
    }
    Ok(())
}

// The bytes of the cell that is written.
fn write_span(layout: &Layout, step: &Step, write: &Write) -> Span
    requires legal { IsLegalLayout layout.now }
    requires entry { HasEntry layout.now step.now.elem write.now.path.field
        (written_index step.now write.now) }
    ensures { IsWriteSpan layout.now step.now write.now result }
{
    cell_span(&written_cell(layout, step, write))
}

/// The bytes that a step may change: those of its fresh record, and those of the cells that it
/// writes. They take the place of the spans that were there.
pub fn touched(
    layout: &Layout,
    step: &Step,
    writes: &[Write],
    spans: &mut Vec<Span>,
) -> Result<(), NoMemory>
    requires legal { IsLegalLayout layout.now }
    requires fresh { IfSome step.now.fresh (IsSlot layout.now) }
    requires entries { All (λ w. HasEntry layout.now step.now.elem w.path.field
        (written_index step.now w)) writes.now }
    ensures spans { OnOk result (spans.new.items ≡ step_spans layout.now step.now writes.now) }
    ensures within { OnOk result (AreWithin spans.new.items layout.now.length) }
{
    spans.clear();
    push_span(spans, fresh_span(layout, step.fresh))?;
    for write in writes {
        spans.push(write_span(layout, step, write))?;
    }
    Ok(())
}
