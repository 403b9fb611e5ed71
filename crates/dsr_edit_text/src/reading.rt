// The groups of a script.
ghost use Rattle.std.specs.Prelude.{◌≡◌, ◌<◌, ◌^◌, Decides, IfErr, IfOk, Some, codes, length, nat_eq, slice_get};
ghost use Rattle.bstr.specs.Text.{lines_of};
ghost use Rattle.dsr_edit_text.specs.Scripts as said;
ghost use Rattle.dsr_edit_text.specs.Scripts.{IsFirstWrong, IsScript, Tells};
ghost use Rattle.dsr_edit_text.specs.Lenient.{IsWord};
ghost use Rattle.dsr_edit_text.specs.Reads.{ReadsGroups, ReadsSet};
ghost use Rattle.dsr_edit_text.specs.Shown.{shown, shown_groups, texts_of};

use crate::faults::ScriptFault;
use crate::lines::{SetLine, is_set, set_in};
use crate::names::is_name;
use bstr::ByteSlice;
use dsr_ir::NoMemory;
use std::alloc::Global;

// The lines of the text, with their line feeds.
fn split<'a>(alloc: Global, text: &'a [u8]) -> Result<Vec<&'a [u8]>, NoMemory>
    ensures lines { IfOk result (λ lines. texts_of lines.items ≡ lines_of text.entry.now) }
    ensures few { IfOk result (λ lines. length lines.items < 2 ^ 63) }
{
    Ok(text.lines_with_terminator().collect(alloc)?)
}

// Whether the word is the name of the head.
fn is_head(word: &[u8]) -> bool
    ensures { Decides result (word.now ≡ codes "head") }
{
    word == b"head".as_slice()
}

// Whether what is named is the head, or a slot of something that has a name.
fn is_record(second: bool, set: &SetLine) -> bool
    requires word { IsWord set.now.pool.now }
    ensures { Decides result (said.IsRecordText second (shown set.now)) }
{
    match set.slot {
        Some(_) => is_name(second, set.pool),
        None => is_head(set.pool),
    }
}

// The line that the text is, where it is one that sets a value.
fn read_set<'a>(
    alloc: Global,
    second: bool,
    text: &'a [u8],
) -> Result<Option<SetLine<'a>>, NoMemory>
    ensures { IfOk result (ReadsSet second text.entry.now) }
{
    let set = set_in(text);
    if !is_record(second, &set) {
        return Ok(None);
    }
    if !is_name(second, set.field) {
        return Ok(None);
    }
    if !is_set(alloc, &set, text)? {
        return Ok(None);
    }
    Ok(Some(set))
}

// The line at this place.
fn text_at<'a>(texts: &[&'a [u8]], place: usize) -> &'a [u8]
    requires inside { place < length texts.now }
    ensures { slice_get (texts_of texts.now) place ≡ Some result.now }
{
    texts[place]
}

// Whether the line ends a group.
fn is_commit(text: &[u8]) -> bool
    ensures { Decides result (text.now ≡ said.commit_text) }
{
    text == b"commit\n".as_slice()
}

// Whether a group has no line yet.
fn is_empty(group: &[SetLine]) -> bool
    ensures { result ≡ nat_eq (length group.now) 0 }
{
    group.is_empty()
}

// All groups of the lines.
fn read_groups<'a>(
    alloc: Global,
    second: bool,
    texts: &[&'a [u8]],
) -> Result<Vec<Vec<SetLine<'a>>>, ScriptFault>
    ensures { ReadsGroups second (texts_of texts.now) result }
{
    let mut groups = Vec::new(alloc);
    let mut group = Vec::new(alloc);
    for place in 0..texts.len() {
        let text = text_at(texts, place);
        if is_commit(text) {
            groups.push(group)?;
            group = Vec::new(alloc);
            continue;
        }
        let Some(set) = read_set(alloc, second, text)? else {
            return Err(ScriptFault::Line(place as u64 + 1));
        };
        group.push(set)?;
    }
    if !is_empty(&group) {
        return Err(ScriptFault::Line(texts.len() as u64 + 1));
    }
    Ok(groups)
}

/// The groups of which the text is the script, each with its lines; `second` says whether names are
/// those of a specification of version 2.
pub fn read<'a>(
    alloc: Global,
    second: bool,
    text: &'a [u8],
) -> Result<Vec<Vec<SetLine<'a>>>, ScriptFault>
    ensures read { IfOk result (λ groups.
        IsScript second text.entry.now (shown_groups groups.items)) }
    ensures few { IfOk result (λ groups.
        length (said.script_texts (shown_groups groups.items)) < 2 ^ 63) }
    ensures fault { IfErr result (Tells (IsFirstWrong second text.entry.now)) }
{
    let texts = split(alloc, text)?;
    read_groups(alloc, second, &texts)
}
