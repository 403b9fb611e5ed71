// The text that tells what each step of a repair changed.
ghost use Rattle.std.specs.Prelude.{◌≡◌, ◌<◌, ◌+◌, ◌++◌, ◌^◌, IfOk, OnOk, [], codes, length};
ghost use Rattle.std.specs.List.{flat_map};
ghost use Rattle.std.specs.Option.{option_map_or};
ghost use Rattle.dsr_log.specs.Entries.{entry_of};
ghost use Rattle.dsr_report.specs.Reports as said;

use dsr_answers::{
    constraint_name, field_name, push, push_behind, push_binding, push_element, push_named,
    push_number,
};
use dsr_ir::{Element, NoMemory, Spec};
use dsr_log::{EntryHead, EntryRef, Log};
use dsr_repair_theory::{ByteChange, CellSet};
use std::alloc::Global;

// Appends a conjunction and a literal, counted from 1, behind a blank.
fn push_place(text: &mut Vec<u8>, head: &EntryHead) -> Result<(), NoMemory>
    ensures { OnOk result (text.new.items ≡ text.old.items
        ++ codes " " ++ said.place_text (entry_of head.now [] [])) }
{
    push_behind(text, b' ', u64::from(head.conj) + 1)?;
    push_behind(text, b'.', u64::from(head.literal) + 1)
}

/// Appends the line that begins the entry with this number.
pub fn push_update(
    text: &mut Vec<u8>,
    spec: &Spec,
    number: u64,
    head: &EntryHead,
) -> Result<(), NoMemory>
    ensures { OnOk result (text.new.items ≡ text.old.items
        ++ said.update_line spec.now number (entry_of head.now [] [])) }
{
    push(text, b"update ")?;
    push_number(text, number)?;
    push_named(text, b" ", constraint_name(spec, head.constraint))?;
    push(text, b" ")?;
    push_binding(text, spec, &head.binding)?;
    push_place(text, head)?;
    push_behind(text, b' ', u64::from(head.rule) + 1)?;
    push(text, b"\n")
}

/// Appends the line of the record that was reset, where one was.
pub fn push_reset(text: &mut Vec<u8>, spec: &Spec, reset: Option<Element>) -> Result<(), NoMemory>
    ensures { OnOk result (text.new.items ≡ text.old.items
        ++ option_map_or (said.reset_line spec.now) reset []) }
{
    match reset {
        Some(elem) => {
            push(text, b"  reset ")?;
            push_element(text, spec, elem)?;
            push(text, b"\n")
        }
        None => Ok(()),
    }
}

// Appends the entry of an array, where the field is one.
fn push_index(text: &mut Vec<u8>, set: &CellSet) -> Result<(), NoMemory>
    ensures { OnOk result (text.new.items ≡ text.old.items ++ said.index_text set.now) }
{
    if !set.path.indexed {
        return Ok(());
    }
    push_behind(text, b'[', set.index)?;
    push(text, b"]")
}

// Appends what was set.
fn push_place_set(text: &mut Vec<u8>, spec: &Spec, set: &CellSet) -> Result<(), NoMemory>
    ensures { OnOk result (text.new.items ≡ text.old.items ++ said.place_set spec.now set.now) }
{
    let field = set.path.field;
    push_element(text, spec, set.elem)?;
    push_named(text, b".", field_name(spec, field.structure, field.field))?;
    push_index(text, set)
}

/// Appends the line of a value that was set.
pub fn push_set(text: &mut Vec<u8>, spec: &Spec, set: &CellSet) -> Result<(), NoMemory>
    ensures { OnOk result (text.new.items ≡ text.old.items ++ said.set_line spec.now set.now) }
{
    push(text, b"  set ")?;
    push_place_set(text, spec, set)?;
    push_behind(text, b' ', set.old)?;
    push_behind(text, b' ', set.new)?;
    push(text, b"\n")
}

fn push_sets(text: &mut Vec<u8>, spec: &Spec, sets: &[CellSet]) -> Result<(), NoMemory>
    ensures { OnOk result (text.new.items ≡ text.old.items
        ++ flat_map (said.set_line spec.now) sets.now) }
{
    for set in sets {
        push_set(text, spec, set)?;
    }
    Ok(())
}

// The two digits of a byte.
fn digits_of(byte: u8) -> [u8; 2]
    ensures { result ≡ said.byte_text byte }
{
    let mut digits = [0; 2];
    hex::encode_to_slice([byte], &mut digits).unwrap();
    digits
}

// Appends the digits of two bytes, each behind a blank, and ends the line.
fn push_bytes(text: &mut Vec<u8>, old: u8, new: u8) -> Result<(), NoMemory>
    ensures { OnOk result (text.new.items ≡ text.old.items
        ++ codes " " ++ said.byte_text old ++ codes " " ++ said.byte_text new ++ codes "\n") }
{
    let ([high, low], [new_high, new_low]) = (digits_of(old), digits_of(new));
    push(text, &[b' ', high, low, b' ', new_high, new_low, b'\n'])
}

/// Appends the line of a byte that is another one.
pub fn push_change(text: &mut Vec<u8>, change: &ByteChange) -> Result<(), NoMemory>
    ensures { OnOk result (text.new.items ≡ text.old.items ++ said.byte_line change.now) }
{
    push(text, b"  byte ")?;
    push_number(text, change.place)?;
    push_bytes(text, change.old, change.new)
}

fn push_changes(text: &mut Vec<u8>, changes: &[ByteChange]) -> Result<(), NoMemory>
    ensures { OnOk result (text.new.items ≡ text.old.items ++ flat_map said.byte_line changes.now) }
{
    for change in changes {
        push_change(text, change)?;
    }
    Ok(())
}

/// Appends the lines of the entry with this number.
pub fn push_entry(
    text: &mut Vec<u8>,
    spec: &Spec,
    number: u64,
    entry: &EntryRef,
) -> Result<(), NoMemory>
    ensures { OnOk result (text.new.items ≡ text.old.items
        ++ said.entry_text spec.now number entry.now) }
{
    let head = entry.head();
    push_update(text, spec, number, head)?;
    push_reset(text, spec, head.reset)?;
    push_sets(text, spec, entry.sets())?;
    push_changes(text, entry.bytes())
}

/// Appends the lines of all entries of a log, behind so many others that were told before.
pub fn push_entries(text: &mut Vec<u8>, spec: &Spec, before: u64, log: &Log) -> Result<(), NoMemory>
    requires few { before + length log.now.entries < 2 ^ 64 }
    ensures { OnOk result (text.new.items ≡ text.old.items
        ++ said.entries_behind spec.now before log.now.entries) }
{
    let mut entries = log.entries();
    for place in 0..log.len() {
        let Some(entry) = entries.next() else {
            unreachable!();
        };
        push_entry(text, spec, before + place as u64 + 1, &entry)?;
    }
    Ok(())
}

/// Appends the line that ends a report of so many entries.
pub fn push_end(text: &mut Vec<u8>, count: u64) -> Result<(), NoMemory>
    ensures { OnOk result (text.new.items ≡ text.old.items ++ said.end_line count) }
{
    push(text, b"updates ")?;
    push_number(text, count)?;
    push(text, b"\n")
}

/// The text that tells all entries.
pub fn text(alloc: Global, spec: &Spec, log: &Log) -> Result<Vec<u8>, NoMemory>
    ensures { IfOk result (λ text. text.items ≡ said.report_text spec.now log.now.entries) }
{
    let count = log.len() as u64;
    let mut text = Vec::new(alloc);
    push_entries(&mut text, spec, 0, log)?;
    push_end(&mut text, count)?;
    Ok(text)
}
