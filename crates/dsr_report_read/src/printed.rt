// Whether a line is the printed one. A line is printed where another one was: what stood there is of
// no matter.
ghost use Rattle.std.specs.Prelude.{◌≡◌, Decides, IfOk, None, []};
ghost use Rattle.dsr_log.specs.Entries.{entry_of};
ghost use Rattle.dsr_report.specs.Reports.{byte_line, end_line, reset_line, set_line, update_line};
ghost use Rattle.dsr_report_read.specs.Lines.{bare};

use crate::lines::Head;
use dsr_ir::{Element, NoMemory, Spec};
use dsr_log::EntryHead;
use dsr_repair_theory::{ByteChange, CellSet};
use dsr_report::{push_change, push_end, push_reset, push_set, push_update};

// The head of an entry that nothing else is told of.
fn bare(head: Head) -> EntryHead
    ensures { entry_of result [] [] ≡ bare head }
{
    EntryHead {
        constraint: head.constraint,
        binding: head.binding,
        conj: head.conj,
        literal: head.literal,
        rule: head.rule,
        reset: None,
    }
}

pub fn is_update(
    printed: &mut Vec<u8>,
    spec: &Spec,
    number: u64,
    head: Head,
    text: &[u8],
) -> Result<bool, NoMemory>
    ensures { IfOk result (λ is. Decides is (text.now ≡ update_line spec.now number (bare head))) }
{
    printed.clear();
    push_update(printed, spec, number, &bare(head))?;
    Ok(printed.as_slice() == text)
}

pub fn is_reset(
    printed: &mut Vec<u8>,
    spec: &Spec,
    elem: Element,
    text: &[u8],
) -> Result<bool, NoMemory>
    ensures { IfOk result (λ is. Decides is (text.now ≡ reset_line spec.now elem)) }
{
    printed.clear();
    push_reset(printed, spec, Some(elem))?;
    Ok(printed.as_slice() == text)
}

pub fn is_set(
    printed: &mut Vec<u8>,
    spec: &Spec,
    set: &CellSet,
    text: &[u8],
) -> Result<bool, NoMemory>
    ensures { IfOk result (λ is. Decides is (text.now ≡ set_line spec.now set.now)) }
{
    printed.clear();
    push_set(printed, spec, set)?;
    Ok(printed.as_slice() == text)
}

pub fn is_change(printed: &mut Vec<u8>, change: &ByteChange, text: &[u8]) -> Result<bool, NoMemory>
    ensures { IfOk result (λ is. Decides is (text.now ≡ byte_line change.now)) }
{
    printed.clear();
    push_change(printed, change)?;
    Ok(printed.as_slice() == text)
}

pub fn is_end(printed: &mut Vec<u8>, count: u64, text: &[u8]) -> Result<bool, NoMemory>
    ensures { IfOk result (λ is. Decides is (text.now ≡ end_line count)) }
{
    printed.clear();
    push_end(printed, count)?;
    Ok(printed.as_slice() == text)
}
