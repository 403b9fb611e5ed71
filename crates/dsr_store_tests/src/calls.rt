// Tables of calls, and how they are to end.
use dsr_store::{Missed, Shelf, ShelfFault, Sink, SinkFault};
use std::alloc::{AllocError, Global};

// A call of a shelf, and how it is to end.
#[derive(Clone, Copy)]
pub enum Call<'a> {
    // A load of at most so many bytes, with those that it gives, or nothing where it fails.
    Load(&'a str, u64, Option<&'a [u8]>),
    // A save of these bytes, and whether it succeeds.
    Save(&'a str, &'a [u8], bool),
}

// Whether the call ends as it is to.
fn ends_so<S: Shelf>(alloc: Global, shelf: &mut S, call: Call<'_>) -> Result<bool, AllocError> {
    match call {
        Call::Load(name, cap, wanted) => match shelf.load(alloc, name, cap) {
            Ok(bytes) => Ok(wanted == Some(bytes.as_slice())),
            Err(ShelfFault::Failed) => Ok(wanted.is_none()),
            Err(ShelfFault::NoMemory) => Err(AllocError),
        },
        Call::Save(name, bytes, wanted) => match shelf.save(alloc, name, bytes) {
            Ok(()) => Ok(wanted),
            Err(ShelfFault::Failed) => Ok(!wanted),
            Err(ShelfFault::NoMemory) => Err(AllocError),
        },
    }
}

// The place of the first call that ends in another way.
pub fn first_wrong<S: Shelf>(
    alloc: Global,
    shelf: &mut S,
    calls: &[Call<'_>],
) -> Result<Option<usize>, AllocError> {
    for (place, call) in calls.iter().enumerate() {
        if !ends_so(alloc, shelf, *call)? {
            return Ok(Some(place));
        }
    }
    Ok(None)
}

pub fn is_missed(last: &Option<Missed>, saving: bool, name: &str) -> bool {
    match last {
        Some(missed) => missed.saving == saving && missed.name.bytes() == name.as_bytes(),
        None => false,
    }
}

// Puts the pieces, and says how many were refused.
pub fn refusals<O: Sink>(alloc: Global, out: &mut O, pieces: &[&str]) -> Result<u8, AllocError> {
    let mut refused = 0u8;
    for piece in pieces {
        match out.put(alloc, piece.as_bytes()) {
            Ok(()) => {}
            Err(SinkFault::Failed) => refused = refused.saturating_add(1),
            Err(SinkFault::NoMemory) => return Err(AllocError),
        }
    }
    Ok(refused)
}
