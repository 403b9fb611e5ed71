// Whether two entries have one text.
ghost use Rattle.std.specs.Prelude.{◌≡◌, Decides, IfOk, OnOk};
ghost use Rattle.dsr_replay.specs.Audits.{HaveOneText};
ghost use Rattle.dsr_report.specs.Reports.{entry_text};

use dsr_ir::{NoMemory, Spec};
use dsr_log::EntryRef;
use dsr_report::push_entry;
use std::alloc::Global;

/// Room for the texts of two entries, used again for each two.
#[derive(Drop)]
pub struct Texts {
    told: Vec<u8>,
    made: Vec<u8>,
}

impl Texts {
    /// No texts. Takes no memory.
    pub fn new(alloc: Global) -> Texts {
        Texts {
            told: Vec::new(alloc),
            made: Vec::new(alloc),
        }
    }
}

// Puts the text of an entry in the place of another text.
fn put_text(text: &mut Vec<u8>, spec: &Spec, number: u64, entry: &EntryRef) -> Result<(), NoMemory>
    ensures { OnOk result (text.new.items ≡ entry_text spec.now number entry.now) }
{
    text.clear();
    push_entry(text, spec, number, entry)
}

// Whether two entries are the same.
fn are_same(told: &EntryRef, made: &EntryRef) -> bool
    ensures { Decides result (told.now ≡ made.now) }
{
    if told.head() != made.head() {
        return false;
    }
    if told.sets() != made.sets() {
        return false;
    }
    told.bytes() == made.bytes()
}

/// Whether two entries have one text under a number. A text names fields, so entries may differ in
/// fields that are named alike.
pub fn are_alike(
    texts: &mut Texts,
    spec: &Spec,
    number: u64,
    told: &EntryRef,
    made: &EntryRef,
) -> Result<bool, NoMemory>
    ensures { IfOk result (λ is. Decides is (HaveOneText spec.now number told.now made.now)) }
{
    // (most are the same, and then no text is made)
    if are_same(told, made) {
        return Ok(true);
    }
    put_text(&mut texts.told, spec, number, told)?;
    put_text(&mut texts.made, spec, number, made)?;
    Ok(texts.told == texts.made)
}
