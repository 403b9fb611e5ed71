// The log of a text.
ghost use Rattle.std.specs.Prelude.{◌≡◌, ◌+◌, ◌<◌, ◌^◌, Decides, IfErr, IfOk, List, Some, length, slice_get};
ghost use Rattle.bstr.specs.Text.{lines_of};
ghost use Rattle.dsr_meaning.specs.Typed.{IsTyped};
ghost use Rattle.dsr_report.specs.Reports.{report_text};
ghost use Rattle.dsr_report_read.specs.Forms.{IsFirstWrong, IsReported, IsReportOf};
ghost use Rattle.dsr_report_read.specs.Grouped.{entries_of};
ghost use Rattle.dsr_report_read.specs.Lines.{line_text};
ghost use Rattle.dsr_report_read.specs.Reads.{IsLineOf, Reads, ReadsLine, ReadsRow, Tells, texts_of};
ghost use Rattle.dsr_report_read.specs.declared.faults.ReadFault.TheVariants as faults;
ghost use Rattle.dsr_report_read.specs.declared.lines.Kind.TheVariants as kinds;
ghost use Rattle.dsr_report_read.specs.declared.lines.Line.{Line as LineOf};

use crate::entries::entries_of;
use crate::faults::ReadFault;
use crate::following::{kind_of, may_follow, moved};
use crate::heads::read_head;
use crate::lines::{Kind, Line, State};
use crate::printed::is_end;
use crate::records::{read_change, read_reset};
use crate::sets::read_set;
use bstr::ByteSlice;
use dsr_ir::{NoMemory, Spec};
use dsr_report::Log;
use std::alloc::Global;

// The lines of the text, with their line feeds.
fn split<'a>(alloc: Global, text: &'a [u8]) -> Result<Vec<&'a [u8]>, NoMemory>
    ensures { IfOk result (λ lines. texts_of lines.items ≡ lines_of text.entry.now) }
{
    Ok(text.lines_with_terminator().collect(alloc)?)
}

fn read_end(
    printed: &mut Vec<u8>,
    spec: &Spec,
    count: u64,
    text: &[u8],
) -> Result<Option<Line>, NoMemory>
    ensures { IfOk result (Reads (IsLineOf spec.now kinds.End) (line_text spec.now count) text.now) }
{
    if !is_end(printed, count, text)? {
        return Ok(None);
    }
    Ok(Some(Line::End))
}

// The line of this kind.
fn read_of(
    printed: &mut Vec<u8>,
    spec: &Spec,
    kind: Kind,
    count: u64,
    text: &[u8],
) -> Result<Option<Line>, NoMemory>
    requires typed { IsTyped spec.now }
    requires few { count + 1 < 2 ^ 64 }
    ensures { IfOk result (Reads (IsLineOf spec.now kind) (line_text spec.now count) text.now) }
{
    match kind {
        Kind::Update => Ok(read_head(printed, spec, count + 1, text)?.map(Line::Update)),
        Kind::Reset => Ok(read_reset(printed, spec, text)?.map(Line::Reset)),
        Kind::Set => Ok(read_set(printed, spec, text)?.map(Line::Set)),
        Kind::Byte => Ok(read_change(printed, text)?.map(Line::Byte)),
        Kind::End => read_end(printed, spec, count, text),
    }
}

// The next line, where it may stand there.
fn read_line(
    printed: &mut Vec<u8>,
    spec: &Spec,
    state: State,
    text: &[u8],
) -> Result<Option<Line>, NoMemory>
    requires typed { IsTyped spec.now }
    requires few { state.count + 1 < 2 ^ 64 }
    ensures { IfOk result (ReadsLine spec.now state text.now) }
{
    let Some(kind) = kind_of(text) else {
        return Ok(None);
    };
    if !may_follow(state.last, kind) {
        return Ok(None);
    }
    read_of(printed, spec, kind, state.count, text)
}

fn is_ended(state: State) -> bool
    ensures { Decides result (state.last ≡ Some kinds.End) }
{
    match state.last {
        Some(Kind::End) => true,
        _ => false,
    }
}

// The line at this place.
fn text_at<'a>(texts: &[&'a [u8]], place: usize) -> &'a [u8]
    requires inside { place < length texts.now }
    ensures { slice_get (texts_of texts.now) place ≡ Some result.now }
{
    texts[place]
}

// All lines up to the end.
fn read_lines(alloc: Global, spec: &Spec, texts: &[&[u8]]) -> Result<Vec<Line>, ReadFault>
    requires typed { IsTyped spec.now }
    ensures { ReadsRow spec.now (texts_of texts.now) result }
{
    let mut lines = Vec::new(alloc);
    let mut printed = Vec::new(alloc);
    let mut state = State {
        count: 0,
        last: None,
    };
    for place in 0..texts.len() {
        let text = text_at(texts, place);
        let Some(line) = read_line(&mut printed, spec, state, text)? else {
            return Err(ReadFault::Line(place as u64 + 1));
        };
        lines.push(line)?;
        state = moved(state, line);
    }
    if !is_ended(state) {
        return Err(ReadFault::Line(texts.len() as u64 + 1));
    }
    Ok(lines)
}

/// A log of which the text is the report. `Line` tells the number of the first line that isn't of
/// the form, counted from 1; behind the last line it is one more, where the end is missing.
/// `NoMemory` says that memory was wanting.
pub fn read(alloc: Global, spec: &Spec, text: &[u8]) -> Result<Log, ReadFault>
    requires typed { IsTyped spec.now }
    ensures text { IfOk result (λ log. text.now ≡ report_text spec.now log.entries) }
    ensures formed { IfOk result (λ log. (lines : List LineOf)
        × (log.entries ≡ entries_of lines) × IsReportOf spec.now (lines_of text.now) lines) }
    ensures reported { IfOk result (λ log. IsReported spec.now log.entries) }
    ensures fault { IfErr result (Tells (IsFirstWrong spec.now (lines_of text.now))) }
    ensures read { (lines : List LineOf) → IsReportOf spec.now (lines_of text.now) lines
        → IfErr result (λ fault. fault ≡ faults.NoMemory) }
{
    let texts = split(alloc, text)?;
    let lines = read_lines(alloc, spec, &texts)?;
    let log = entries_of(alloc, &lines)?;
    Ok(log)
}
