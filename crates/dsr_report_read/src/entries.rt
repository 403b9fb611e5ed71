// Lines in a row, as entries.
ghost use Rattle.std.specs.Prelude.{◌≡◌, ◌++◌, ◌∷◌, [], IfOk, OnOk, drop, length};
ghost use Rattle.dsr_report_read.specs.Grouped as said;

use crate::lines::{Head, Line};
use dsr_ir::{Element, NoMemory};
use dsr_log::{EntryHead, EntryRef, Log};
use dsr_repair_theory::{ByteChange, CellSet};
use std::alloc::Global;

fn reset_ahead(lines: &[Line]) -> Option<Element>
    ensures { result ≡ said.reset_ahead lines.now }
{
    match lines.first() {
        Some(Line::Reset(elem)) => Some(*elem),
        _ => None,
    }
}

fn set_of(line: &Line) -> Option<CellSet>
    ensures { result ≡ said.set_of line.now }
{
    match line {
        Line::Set(set) => Some(*set),
        _ => None,
    }
}

fn change_of(line: &Line) -> Option<ByteChange>
    ensures { result ≡ said.change_of line.now }
{
    match line {
        Line::Byte(change) => Some(*change),
        _ => None,
    }
}

// Puts the sets at the front in the place of others.
fn put_sets(sets: &mut Vec<CellSet>, lines: &[Line]) -> Result<(), NoMemory>
    ensures { OnOk result (sets.new.items ≡ said.sets_ahead lines.now) }
{
    sets.clear();
    for line in lines {
        let Some(set) = set_of(line) else {
            return Ok(());
        };
        sets.push(set)?;
    }
    Ok(())
}

// Puts the bytes at the front in the place of others.
fn put_bytes(bytes: &mut Vec<ByteChange>, lines: &[Line]) -> Result<(), NoMemory>
    ensures { OnOk result (bytes.new.items ≡ said.bytes_ahead lines.now) }
{
    bytes.clear();
    for line in lines {
        let Some(change) = change_of(line) else {
            return Ok(());
        };
        bytes.push(change)?;
    }
    Ok(())
}

// What stands behind a reset at the front.
fn behind_reset(lines: &[Line]) -> &[Line]
    ensures { result.now ≡ said.behind_reset lines.now }
{
    match lines.first() {
        Some(Line::Reset(_)) => &lines[1..],
        _ => lines,
    }
}

// The lines without so many at their front.
fn skip(lines: &[Line], count: usize) -> &[Line]
    ensures { result.now ≡ drop count lines.now }
{
    lines.get(count..).unwrap_or(&[])
}

// What is told of an update beside what it changed.
fn head_with(head: Head, reset: Option<Element>) -> EntryHead
    ensures { result ≡ said.head_with head reset }
{
    EntryHead {
        constraint: head.constraint,
        binding: head.binding,
        conj: head.conj,
        literal: head.literal,
        rule: head.rule,
        reset,
    }
}

// Notes the entry of an update with what stands behind it. What the room for sets and bytes held is
// of no matter.
fn push_entry(
    sets: &mut Vec<CellSet>,
    bytes: &mut Vec<ByteChange>,
    head: Head,
    rest: &[Line],
    log: &mut Log,
) -> Result<(), NoMemory>
    ensures { OnOk result (log.new.entries
        ≡ log.old.entries ++ said.entry_of head rest.now ∷ []) }
{
    let reset = reset_ahead(rest);
    let rest = behind_reset(rest);
    put_sets(sets, rest)?;
    put_bytes(bytes, skip(rest, sets.len()))?;
    log.reserve(sets.len(), bytes.len())?;
    log.push(&EntryRef::new(head_with(head, reset), sets, bytes));
    Ok(())
}

fn head_of(line: &Line) -> Option<Head>
    ensures { result ≡ said.head_of line.now }
{
    match line {
        Line::Update(head) => Some(*head),
        _ => None,
    }
}

/// The entries of the lines.
pub fn entries_of(alloc: Global, lines: &[Line]) -> Result<Log, NoMemory>
    ensures { IfOk result (λ log. log.entries ≡ said.entries_of lines.now) }
{
    let mut log = Log::new(alloc);
    let mut sets = Vec::new(alloc);
    let mut bytes = Vec::new(alloc);
    for (place, line) in lines.iter().enumerate() {
        if let Some(head) = head_of(line) {
            push_entry(
                &mut sets,
                &mut bytes,
                head,
                skip(lines, place + 1),
                &mut log,
            )?;
        }
    }
    Ok(log)
}
