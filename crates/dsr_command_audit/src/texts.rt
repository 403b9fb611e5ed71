// What is told of reports.
ghost use Rattle.std.specs.Prelude.{◌≡◌, ◌≢◌, ◌++◌, IfOk, OnOk, codes, decimal, length};
ghost use Rattle.dsr_command_audit.specs.Misread.{IsMisread};
ghost use Rattle.dsr_command_audit.specs.ReportTexts as said;
ghost use Rattle.dsr_command_audit.specs.ReportTexts.{line_answer, refused_answer};
ghost use Rattle.dsr_replay.specs.declared.faults.AuditFault.TheVariants as faults;
ghost use Rattle.dsr_script.specs.Moves.{shown};

use dsr_answers::{push, push_number};
use dsr_ir::NoMemory;
use dsr_log::Log;
use dsr_replay::AuditFault;
use dsr_report_read::ReadFault;
use dsr_script::{Told, Verdict};
use dsr_undo_laws::UndoFault;
use std::alloc::Global;

// A word and a number.
fn push_counted(text: &mut Vec<u8>, word: &[u8], number: u64) -> Result<(), NoMemory>
    ensures { OnOk result (text.new.items ≡ text.old.items ++ word.now ++ decimal number) }
{
    push(text, word)?;
    push_number(text, number)
}

// The answer that a report is refused, for what these words say.
fn refused_told(alloc: Global, words: &[u8]) -> Result<Told, NoMemory>
    ensures { IfOk result (λ told. shown told ≡ refused_answer words.now) }
{
    let mut text = Vec::new(alloc);
    push(&mut text, b"report ")?;
    push(&mut text, words)?;
    push(&mut text, b"\n")?;
    Ok(Told {
        verdict: Verdict::ReportRefused,
        text,
    })
}

/// The answer that the line of a report with this number isn't of the form.
pub fn line_told(alloc: Global, number: u64) -> Result<Told, NoMemory>
    ensures { IfOk result (λ told. shown told ≡ line_answer number) }
{
    let mut words = Vec::new(alloc);
    push_counted(&mut words, b"1 ", number)?;
    refused_told(alloc, &words)
}

/// The answer that a report isn't of the form, for this fault of its lines. Want of memory is none.
pub fn misread_told(alloc: Global, fault: ReadFault) -> Result<Told, NoMemory>
    ensures { IfOk result (λ told. IsMisread fault (shown told)) }
{
    match fault {
        ReadFault::Line(number) => line_told(alloc, number),
        ReadFault::NoMemory => Err(NoMemory),
    }
}

// Appends what an audit found; want of memory says nothing of the report.
fn push_audit(text: &mut Vec<u8>, fault: AuditFault) -> Result<(), NoMemory>
    ensures told { OnOk result (text.new.items ≡ text.old.items ++ said.audit_words fault) }
    ensures known { OnOk result (fault ≢ faults.NoMemory) }
{
    match fault {
        AuditFault::Entry(number) => push_counted(text, b"2 ", number),
        AuditFault::Short(count) => push_counted(text, b"3 ", count),
        AuditFault::Fixed(place) => push_counted(text, b"4 ", place),
        AuditFault::NoMemory => Err(NoMemory),
    }
}

/// The answer that an audit has this fault. Want of memory is none.
pub fn audit_fault_told(alloc: Global, fault: AuditFault) -> Result<Told, NoMemory>
    ensures told { IfOk result (λ told. shown told ≡ refused_answer (said.audit_words fault)) }
    ensures known { IfOk result (λ _. fault ≢ faults.NoMemory) }
{
    let mut words = Vec::new(alloc);
    push_audit(&mut words, fault)?;
    refused_told(alloc, &words)
}

// Appends a word with an entry and a place behind it.
fn push_line(text: &mut Vec<u8>, word: &[u8], entry: u64, place: u64) -> Result<(), NoMemory>
    ensures { OnOk result (text.new.items ≡ text.old.items
        ++ word.now ++ decimal entry ++ codes " " ++ decimal place) }
{
    push_counted(text, word, entry)?;
    push_counted(text, b" ", place)
}

fn push_undo(text: &mut Vec<u8>, fault: UndoFault) -> Result<(), NoMemory>
    ensures { OnOk result (text.new.items ≡ text.old.items ++ said.undo_words fault) }
{
    match fault {
        UndoFault::Byte(entry, place) => push_line(text, b"5 ", entry, place),
        UndoFault::FixedField(entry, place) => push_line(text, b"6 ", entry, place),
    }
}

/// The answer that a repair can't be taken back, for this fault.
pub fn undo_fault_told(alloc: Global, fault: UndoFault) -> Result<Told, NoMemory>
    ensures { IfOk result (λ told. shown told ≡ refused_answer (said.undo_words fault)) }
{
    let mut words = Vec::new(alloc);
    push_undo(&mut words, fault)?;
    refused_told(alloc, &words)
}

// The answer that a command did what it was asked for, with how many entries it went over.
fn counted_told(alloc: Global, word: &[u8], count: u64) -> Result<Told, NoMemory>
    ensures { IfOk result (λ told. shown told ≡ record {
      verdict = Verdict.Ok;
      text = word.now ++ decimal count ++ codes "\n";
    }) }
{
    let mut text = Vec::new(alloc);
    push_counted(&mut text, word, count)?;
    push(&mut text, b"\n")?;
    Ok(Told {
        verdict: Verdict::Ok,
        text,
    })
}

/// The answer that the log of a report is that of a repair.
pub fn audited_told(alloc: Global, log: &Log) -> Result<Told, NoMemory>
    ensures { IfOk result (λ told. shown told ≡ said.audited_answer (length log.now.entries)) }
{
    counted_told(alloc, b"audited ", log.len() as u64)
}

/// The answer that the entries of a log were taken back.
pub fn undone_told(alloc: Global, log: &Log) -> Result<Told, NoMemory>
    ensures { IfOk result (λ told. shown told ≡ said.undone_answer (length log.now.entries)) }
{
    counted_told(alloc, b"undone ", log.len() as u64)
}
