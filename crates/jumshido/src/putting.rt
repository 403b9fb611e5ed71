// What is put to the standard output, and told on the standard error.
use crate::colours::coloured;
use crate::reasons::reason;
use dsr_input::InputShelf;
use dsr_ir::NoMemory;
use dsr_script::{Status, Verdict};
use dsr_store::{Sink, StdSink};
use std::alloc::Global;
use std::rt::Files;

/// That what was asked for is done.
pub const DONE: Status = Status::Said(Verdict::Ok);

/// How answers are given.
#[derive(Clone, Copy)]
pub struct Manner {
    pub colours: bool,
    /// As documents.
    pub json: bool,
}

/// Tells something on the standard error. That this is closed is no reason to fail.
pub fn tell<R: Eprint>(rt: &R, alloc: Global, text: &str, colours: bool) {
    if colours && let Ok(shown) = coloured(alloc, text) {
        let _told = rt.eprint(shown);
    } else {
        let _told = rt.eprint(text);
    }
}

/// Puts an answer to the standard output, and gives the status.
pub fn put<R: Print + Eprint>(rt: &R, alloc: Global, text: &[u8], status: Status) -> Status {
    let mut sink = StdSink { rt, faults: 0 };
    match sink.put(alloc, text) {
        Ok(()) => status,
        Err(_) => {
            let told = "error: the answer can't be written to the standard output\n";
            tell(rt, alloc, told, false);
            Status::OutputFailed
        }
    }
}

/// Which file couldn't be read or saved, and why; nothing where each could.
pub fn missed_told<R: Files>(
    rt: &R,
    alloc: Global,
    shelf: &InputShelf<'_, R>,
) -> Result<String, NoMemory> {
    let Some(missed) = shelf.missed() else {
        return Ok(String::new(alloc));
    };
    let name = str::from_utf8(missed.name.bytes()).unwrap_or("?");
    reason(alloc, rt, missed.saving, name)
}
