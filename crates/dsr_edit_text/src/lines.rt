// Lines that set a value: lenient reading, and printing.
ghost use Rattle.std.specs.Prelude.{◌≡◌, ◌++◌, Decides, IfOk, OnOk, drop, take};
ghost use Rattle.dsr_edit_text.specs.Lenient as lenient;
ghost use Rattle.dsr_edit_text.specs.Scripts as said;
ghost use Rattle.dsr_edit_text.specs.Shown.{shown};

use dsr_answers::{push, push_number};
use dsr_ir::NoMemory;
use dsr_lexer::word_len;
use dsr_report_read::{number_ahead, skip};
use std::alloc::Global;

/// A line that sets a value: of which field of which record, by their names.
#[derive(Clone, Copy, Drop)]
pub struct SetLine<'a> {
    /// The name of the record's pool, or `head`.
    pub pool: &'a [u8],
    /// The record's slot; none of the head.
    pub slot: Option<u64>,
    pub field: &'a [u8],
    /// The entry of an array, counted from 0.
    pub index: Option<u64>,
    pub value: u64,
}

// The word at the front, and what stands behind it.
fn word_ahead<'a>(text: &'a [u8]) -> (&'a [u8], &'a [u8])
    ensures word { result.0.now ≡ lenient.word_ahead text.entry.now }
    ensures rest { result.1.now ≡ lenient.behind_word text.entry.now }
{
    text.split_at(word_len(text))
}

// Whether an opening bracket stands at the front.
fn opens(text: &[u8]) -> bool
    ensures { result ≡ lenient.opens text.now }
{
    match text {
        [b'[', ..] => true,
        _ => false,
    }
}

// The number in brackets at the front, and what stands behind them; none where no bracket stands
// there.
fn index_ahead<'a>(text: &'a [u8]) -> (Option<u64>, &'a [u8])
    ensures index { result.0 ≡ lenient.index_ahead text.entry.now }
    ensures rest { result.1.now ≡ lenient.behind_index text.entry.now }
{
    if !opens(text) {
        return (None, text);
    }
    let (index, rest) = number_ahead(skip(text, 1));
    (Some(index), skip(rest, 1))
}

/// What the line may set.
pub fn set_in<'a>(text: &'a [u8]) -> SetLine<'a>
    ensures { shown result ≡ lenient.set_in text.entry.now }
{
    let (pool, rest) = word_ahead(skip(text, 4));
    let (slot, rest) = index_ahead(rest);
    let (field, rest) = word_ahead(skip(rest, 1));
    let (index, rest) = index_ahead(rest);
    let (value, _) = number_ahead(skip(rest, 1));
    SetLine {
        pool,
        slot,
        field,
        index,
        value,
    }
}

// Appends a number in brackets, where there is one.
fn push_index(text: &mut Vec<u8>, index: Option<u64>) -> Result<(), NoMemory>
    ensures { OnOk result (text.new.items ≡ text.old.items ++ said.index_text index) }
{
    let Some(index) = index else {
        return Ok(());
    };
    push(text, b"[")?;
    push_number(text, index)?;
    push(text, b"]")
}

// Appends the line.
fn push_set(text: &mut Vec<u8>, set: &SetLine) -> Result<(), NoMemory>
    ensures { OnOk result (text.new.items ≡ text.old.items ++ said.set_text (shown set.now)) }
{
    push(text, b"set ")?;
    push(text, set.pool)?;
    push_index(text, set.slot)?;
    push(text, b".")?;
    push(text, set.field)?;
    push_index(text, set.index)?;
    push(text, b" ")?;
    push_number(text, set.value)?;
    push(text, b"\n")
}

/// Whether the text is that of the line.
pub fn is_set(alloc: Global, set: &SetLine, text: &[u8]) -> Result<bool, NoMemory>
    ensures { IfOk result (λ is. Decides is (text.now ≡ said.set_text (shown set.now))) }
{
    let mut line = Vec::with_capacity(alloc, text.len())?;
    push_set(&mut line, set)?;
    Ok(line.as_slice() == text)
}
