// The system's files and its standard output.
ghost use Rattle.std.specs.Prelude.{◌≡◌, ◌↔◌, ◌≤◌, vec_len, take, IfOk, IfSome, None};
ghost use Rattle.std.specs.IoError.{error_kind};

use crate::outside::{Missed, Shelf, ShelfFault, Sink, SinkFault};
use crate::replacing::save_whole;
use std::alloc::Global;
use std::fs;
use std::io::{self, ErrorKind, Read, Write};
use std::rt::Files;

// How many bytes one read asks for at most.
const CHUNK: usize = 4096;

// What an error of the system is told as.
pub(crate) fn fault_of(error: &io::Error) -> ShelfFault
    ensures { (result ≡ ShelfFault.NoMemory) ↔ (error_kind error.now ≡ ErrorKind.OutOfMemory) }
{
    match error.kind() {
        ErrorKind::OutOfMemory => ShelfFault::NoMemory,
        _ => ShelfFault::Failed,
    }
}

/// The first bytes that a reader gives, at most `cap`. A read that gives nothing is its end, and
/// one that is interrupted is tried again. `NoMemory` is want of memory, here or as a read tells
/// it, `Failed` any other failure of a read.
pub fn read_front<F: Read>(alloc: Global, file: &mut F, cap: u64) -> Result<Vec<u8>, ShelfFault>
    ensures capped { IfOk result (λ bytes. vec_len bytes ≤ cap) }
    ensures front { IfOk result
        (λ bytes. IfSome (F.remaining file.old) (λ whole. bytes.items ≡ take cap whole)) }
{
    let mut bytes = Vec::new(alloc);
    let mut chunk = [0u8; CHUNK];
    for _turn in 0..u64::MAX {
        let left = cap - bytes.len() as u64;
        if left == 0 {
            return Ok(bytes);
        }
        let want = left.min(CHUNK as u64) as usize;
        match file.read(&mut chunk[..want]) {
            Ok(0) => return Ok(bytes),
            Ok(count) => bytes.extend_from_slice(&chunk[..count])?,
            Err(error) if error.kind() == ErrorKind::Interrupted => (),
            Err(error) => return Err(fault_of(&error)),
        }
    }
    Err(ShelfFault::Failed)
}

// The first bytes of a file, at most `cap`.
fn load_front<R: Files>(alloc: Global, rt: &R, name: &str, cap: u64) -> Result<Vec<u8>, ShelfFault>
    ensures { IfOk result (λ bytes. vec_len bytes ≤ cap) }
{
    match fs::open(rt, name) {
        Ok(mut file) => read_front(alloc, &mut file, cap),
        Err(error) => Err(fault_of(&error)),
    }
}

/// The system's files, by their paths. What they hold isn't told, since others may write them too.
///
/// A save never ruins a file. It makes a new file in the same folder, under the first of the names
/// `.dsr-new-0` to `.dsr-new-9999` that nothing has, writes all bytes of it to the disk, gives it
/// the permission bits of the file that it replaces, and renames it to NAME.
///
/// - After a kill or a crash, NAME has all its old bytes or all the new ones; if there was no such
///   file, there is none, or the whole new one. The new file may be left. No save reads it or
///   writes over it, since it may be that of a save that goes on. It can be removed while none does.
/// - After a failure, for want of room, of leave, of memory or of a name for the new file, NAME is
///   as it was, and the new file is removed. Leave is wanted to write the folder as well as the
///   file, if there is one.
/// - Where NAME is a symbolic link, it stays, and the file that it leads to is the one that is
///   replaced, in that file's folder. Other hard links of a file keep the old bytes. The new
///   file has the user and the group of the program, and no attributes but its permission bits.
/// - What is no plain file, as a device or a pipe, is written to as it stands, so a failure or a
///   kill may come when it has taken a part.
#[derive(Drop)]
pub struct FileShelf<'a, R: Files> {
    /// The runtime that the files are reached through.
    pub rt: &'a R,
    /// How many calls failed; it stays at its last value.
    pub faults: u64,
    /// The last call that failed, if one did.
    pub last: Option<Missed>,
}

impl<'a, R: Files> Shelf for FileShelf<'a, R> {
    ghost held = { λ _. None };

    ghost faults = { λ shelf. shelf.faults };

    ghost last = { λ shelf. shelf.last };

    fn load(&mut self, alloc: Global, name: &str, cap: u64) -> Result<Vec<u8>, ShelfFault> {
        let missed = Missed::new(alloc, false, name)?;
        match load_front(alloc, self.rt, name, cap) {
            Ok(bytes) => Ok(bytes),
            Err(ShelfFault::NoMemory) => Err(ShelfFault::NoMemory),
            Err(ShelfFault::Failed) => {
                self.faults = self.faults.saturating_add(1);
                self.last = Some(missed);
                Err(ShelfFault::Failed)
            }
        }
    }

    fn save(&mut self, alloc: Global, name: &str, bytes: &[u8]) -> Result<(), ShelfFault> {
        let missed = Missed::new(alloc, true, name)?;
        match save_whole(alloc, self.rt, name, bytes) {
            Err(ShelfFault::Failed) => {
                self.faults = self.faults.saturating_add(1);
                self.last = Some(missed);
                Err(ShelfFault::Failed)
            }
            saved => saved,
        }
    }
}

/// The standard output. What was written isn't told.
#[derive(Drop)]
pub struct StdSink<'a, R: Print> {
    /// The runtime that the output is reached through.
    pub rt: &'a R,
    /// How many calls failed; it stays at its last value.
    pub faults: u64,
}

impl<'a, R: Print> Sink for StdSink<'a, R> {
    ghost written = { λ _. None };

    ghost faults = { λ sink. sink.faults };

    fn put(&mut self, _alloc: Global, piece: &[u8]) -> Result<(), SinkFault> {
        match io::writer(self.rt).write_all(piece) {
            Ok(()) => Ok(()),
            Err(_) => {
                self.faults = self.faults.saturating_add(1);
                Err(SinkFault::Failed)
            }
        }
    }
}
