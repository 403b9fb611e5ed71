//! The system's files, with the bytes of what is no plain file kept: the standard input or a pipe
//! can be read once alone, and what was saved to it can't be read at all.
#![tactic(auto)]

ghost use Rattle.std.specs.Prelude.{◌≡◌, ◌≤◌, IfOk, None, Some, vec_len};
ghost use Rattle.dsr_store.specs.Causes.{Rose};
ghost use Rattle.dsr_store.specs.declared.outside.ShelfFault.TheVariants.{Failed};

use dsr_store::{FileShelf, Label, Missed, Shelf, ShelfFault};
use std::alloc::{AllocError, Global};
use std::fs;
use std::rt::Files;

/// The name under which the standard input is a file.
pub const INPUT: &str = "/dev/stdin";

// The most bytes of a file that any command reads, and one more, which shows that it has more.
const MOST: u64 = 67_108_865;

// What is no plain file, with the bytes that it gave or was given.
#[derive(Drop)]
struct Kept {
    name: String,
    bytes: Vec<u8>,
}

/// The system's files, with the bytes of those that can't be read again.
#[derive(Drop)]
pub struct InputShelf<'a, R: Files> {
    rt: &'a R,
    kept: Vec<Kept>,
    // How many calls failed; it stays at its last value.
    faults: u64,
    // The last call that failed.
    last: Option<Missed>,
}

// Whether there is something of this name that is no plain file.
fn is_special<R: Files>(rt: &R, name: &str) -> bool {
    match fs::metadata(rt, name) {
        Ok(found) => !found.is_file(),
        Err(_) => false,
    }
}

// The bytes that are kept of a name.
fn kept_of<'a>(kept: &'a [Kept], name: &str) -> Option<&'a [u8]> {
    for one in kept {
        if one.name.as_str() == name {
            return Some(one.bytes.as_slice());
        }
    }
    None
}

// A name with bytes that are to be kept.
fn entry_of(alloc: Global, name: &str, bytes: &[u8]) -> Result<Kept, AllocError> {
    let name = name.to_string(alloc)?;
    let bytes = Vec::from_slice(alloc, bytes)?;
    Ok(Kept { name, bytes })
}

// Keeps the bytes of a name.
fn keep(kept: &mut Vec<Kept>, entry: Kept) -> Result<(), AllocError> {
    kept.push(entry)?;
    Ok(())
}

// The first bytes of what was kept.
fn front_of(alloc: Global, kept: &[u8], cap: u64) -> Result<Vec<u8>, AllocError>
    ensures { IfOk result (λ bytes. vec_len bytes ≤ cap) }
{
    if cap < kept.len() as u64 {
        Vec::from_slice(alloc, &kept[..cap as usize])
    } else {
        Vec::from_slice(alloc, kept)
    }
}

// The call of a file, as it is told where it fails.
fn call_of(alloc: Global, saving: bool, name: &str) -> Result<Missed, AllocError>
    ensures { IfOk result (λ call. call ≡ record { saving = saving; name = name.now }) }
{
    let name = Label::new(Vec::from_slice(alloc, name.as_bytes())?);
    Ok(Missed { saving, name })
}

// The system's files, before any call.
fn files_of<R: Files>(rt: &R) -> FileShelf<'_, R> {
    FileShelf {
        rt,
        faults: 0,
        last: None,
    }
}

// The first bytes of a file. Those of what is no plain file are kept.
fn load_or_kept<R: Files>(
    rt: &R,
    kept: &mut Vec<Kept>,
    alloc: Global,
    name: &str,
    cap: u64,
) -> Result<Vec<u8>, ShelfFault>
    ensures { IfOk result (λ bytes. vec_len bytes ≤ cap) }
{
    if let Some(bytes) = kept_of(kept, name) {
        return Ok(front_of(alloc, bytes, cap)?);
    }
    let mut files = files_of(rt);
    if !is_special(rt, name) {
        return files.load(alloc, name, cap);
    }
    let bytes = files.load(alloc, name, MOST)?;
    let front = front_of(alloc, &bytes, cap)?;
    let name = name.to_string(alloc)?;
    keep(kept, Kept { name, bytes })?;
    Ok(front)
}

// Saves a file. What was saved to no plain file is kept.
fn save_and_keep<R: Files>(
    rt: &R,
    kept: &mut Vec<Kept>,
    alloc: Global,
    name: &str,
    bytes: &[u8],
) -> Result<(), ShelfFault> {
    let mut files = files_of(rt);
    if !is_special(rt, name) {
        return files.save(alloc, name, bytes);
    }
    // What may fail comes before the save.
    kept.reserve(1)?;
    let entry = entry_of(alloc, name, bytes)?;
    files.save(alloc, name, bytes)?;
    keep(kept, entry)?;
    Ok(())
}

impl<'a, R: Files> InputShelf<'a, R> {
    /// No file has failed yet.
    pub fn new(rt: &'a R, alloc: Global) -> InputShelf<'a, R> {
        InputShelf {
            rt,
            kept: Vec::new(alloc),
            faults: 0,
            last: None,
        }
    }

    /// The last call that failed.
    pub fn missed(&self) -> &Option<Missed> {
        &self.last
    }

    // Counts a call that failed, and keeps that it is the last one.
    fn failed(&mut self, missed: Missed) -> ShelfFault
        ensures failed { result ≡ Failed }
        ensures later { self.old.faults ≤ self.new.faults }
        ensures counted { Rose self.old.faults self.new.faults }
        ensures last { self.new.last ≡ Some missed }
    {
        self.faults = self.faults.saturating_add(1);
        self.last = Some(missed);
        ShelfFault::Failed
    }
}

impl<'a, R: Files> Shelf for InputShelf<'a, R> {
    ghost held = { λ _. None };

    ghost faults = { λ shelf. shelf.faults };

    ghost last = { λ shelf. shelf.last };

    fn load(&mut self, alloc: Global, name: &str, cap: u64) -> Result<Vec<u8>, ShelfFault> {
        let missed = call_of(alloc, false, name)?;
        match load_or_kept(self.rt, &mut self.kept, alloc, name, cap) {
            Ok(bytes) => Ok(bytes),
            Err(ShelfFault::NoMemory) => Err(ShelfFault::NoMemory),
            Err(ShelfFault::Failed) => Err(self.failed(missed)),
        }
    }

    fn save(&mut self, alloc: Global, name: &str, bytes: &[u8]) -> Result<(), ShelfFault> {
        let missed = call_of(alloc, true, name)?;
        match save_and_keep(self.rt, &mut self.kept, alloc, name, bytes) {
            Err(ShelfFault::Failed) => Err(self.failed(missed)),
            saved => saved,
        }
    }
}
