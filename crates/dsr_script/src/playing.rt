// A script is played: what it loads comes from the shelf, and what it tells is put.
ghost use Rattle.std.specs.Prelude.{◌≡◌, ◌<◌, IfOk, IfErr, OnOk, map, string_bytes};
ghost use Rattle.dsr_script.specs.Causes.{Causes};
ghost use Rattle.dsr_script.specs.Moves.{IsReady, loads_of, script_of, shown};
ghost use Rattle.dsr_script.specs.Outside.{IsWhole, output_of, told_by};
ghost use Rattle.dsr_script.specs.Runs.{Continues, Halts, Puts, Runs};
ghost use Rattle.dsr_script.specs.Scripts.{Load, Save};

use crate::{Commands, Move, Stage, Status, Told};
use dsr_store::{Shelf, ShelfFault, Sink, SinkFault};
use std::alloc::Global;

const STORE_FAILED: &[u8] = b"store failed\n";

// Puts the text, and tells the status where that is done.
fn put<O: Sink>(alloc: Global, status: Status, text: &[u8], out: &mut O) -> Status
    ensures { Puts (output_of O.Sink out.old) (output_of O.Sink out.new) status text.now result }
{
    match out.put(alloc, text) {
        Ok(()) => status,
        Err(SinkFault::Failed) => Status::OutputFailed,
        Err(SinkFault::NoMemory) => Status::NoMemory,
    }
}

// Loads a whole file, or tells why it can't be had.
fn load<F: Shelf, O: Sink>(
    alloc: Global,
    name: &str,
    limit: u32,
    long: &[u8],
    shelf: &mut F,
    out: &mut O,
) -> Result<Vec<u8>, Status>
    ensures whole { IfOk result (λ bytes. IsWhole (F.held shelf.old) name.now limit bytes.items) }
    ensures same { OnOk result
        (told_by F.Shelf O.Sink shelf.new out.new ≡ told_by F.Shelf O.Sink shelf.old out.old) }
    ensures ends { IfErr result (λ status. Halts
        (told_by F.Shelf O.Sink shelf.old out.old) (told_by F.Shelf O.Sink shelf.new out.new) status
        (Load name.now limit long.now)) }
{
    // One byte more than the limit shows that there are more.
    match shelf.load(alloc, name, u64::from(limit) + 1) {
        Ok(bytes) if bytes.len() as u64 <= u64::from(limit) => Ok(bytes),
        Ok(_) => Err(put(alloc, Status::TooLong, long, out)),
        Err(ShelfFault::Failed) => Err(put(alloc, Status::StoreFailed, STORE_FAILED, out)),
        Err(ShelfFault::NoMemory) => Err(Status::NoMemory),
    }
}

// Saves a file and then tells, or tells why it can't be saved.
fn save<F: Shelf, O: Sink>(
    alloc: Global,
    name: &str,
    bytes: &[u8],
    told: &Told,
    shelf: &mut F,
    out: &mut O,
) -> Status
    ensures { Halts
        (told_by F.Shelf O.Sink shelf.old out.old) (told_by F.Shelf O.Sink shelf.new out.new) result
        (Save name.now bytes.now (shown told.now)) }
{
    match shelf.save(alloc, name, bytes) {
        Ok(()) => put(alloc, Status::Said(told.verdict), &told.text, out),
        Err(ShelfFault::Failed) => put(alloc, Status::StoreFailed, STORE_FAILED, out),
        Err(ShelfFault::NoMemory) => Status::NoMemory,
    }
}

// Does this move: gives the next one, or how the run ends.
fn turn<'a, S: Stage<'a> + Drop, F: Shelf, O: Sink>(
    alloc: Global,
    due: Move<'a, S>,
    shelf: &mut F,
    out: &mut O,
) -> Result<Move<'a, S>, Status>
    requires { IsReady S.ready due }
    ensures ready { IfOk result (λ next. IsReady S.ready next) }
    ensures fewer { IfOk result (λ next. loads_of S.left next < loads_of S.left due.entry) }
    ensures continues { IfOk result (λ next. Continues
        (script_of S.due due.entry) (told_by F.Shelf O.Sink shelf.old out.old)
        (script_of S.due next) (told_by F.Shelf O.Sink shelf.new out.new)) }
    ensures ends { IfErr result (λ status. Runs (script_of S.due due.entry)
        (told_by F.Shelf O.Sink shelf.old out.old) (told_by F.Shelf O.Sink shelf.new out.new) status) }
{
    match due {
        Move::Load {
            name,
            limit,
            long,
            stage,
        } => match load(alloc, name, limit, long, shelf, out) {
            Ok(bytes) => match stage.go_on(alloc, bytes) {
                Ok(next) => Ok(next),
                Err(_) => Err(Status::NoMemory),
            },
            Err(status) => Err(status),
        },
        Move::Save { name, bytes, told } => Err(save(alloc, name, &bytes, &told, shelf, out)),
        Move::Tell(told) => Err(put(alloc, Status::Said(told.verdict), &told.text, out)),
    }
}

// Plays from this move on.
fn play<'a, S: Stage<'a> + Drop, F: Shelf, O: Sink>(
    alloc: Global,
    first: Move<'a, S>,
    shelf: &mut F,
    out: &mut O,
) -> Status
    requires { IsReady S.ready first }
    ensures { Runs (script_of S.due first.entry)
        (told_by F.Shelf O.Sink shelf.old out.old) (told_by F.Shelf O.Sink shelf.new out.new) result }
{
    let mut due = first;
    loop {
        match turn(alloc, due, shelf, out) {
            Ok(next) => due = next,
            Err(status) => return status,
        }
    }
}

/// Does what the words ask for: the words of the command line without the program's name.
///
/// `NoMemory` may come at any point, and no text is put then.
pub fn run<'a, C: Commands<'a> + Drop, F: Shelf, O: Sink>(
    alloc: Global,
    words: &'a [String],
    shelf: &mut F,
    out: &mut O,
) -> Status
    ensures runs { Runs (C.asked (map string_bytes words.now))
        (told_by F.Shelf O.Sink shelf.old out.old) (told_by F.Shelf O.Sink shelf.new out.new) result }
    ensures causes { Causes (C.asked (map string_bytes words.now))
        (told_by F.Shelf O.Sink shelf.old out.old) (told_by F.Shelf O.Sink shelf.new out.new) result }
{
    match C::begin(alloc, words) {
        Ok(first) => play(alloc, first, shelf, out),
        Err(_) => Status::NoMemory,
    }
}
