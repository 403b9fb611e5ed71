// Reads that the system interrupts.
use dsr_store::{ShelfFault, read_front};
use std::alloc::Global;
use std::io::{self, ErrorKind, Read};

/// What a reader does when it is asked.
#[derive(Clone, Copy)]
enum Turn {
    Gives(u8),
    Fails(ErrorKind),
}

/// A reader that takes its turns in order, and ends behind them.
#[derive(Drop)]
struct Halting<'a> {
    turns: &'a [Turn],
    next: usize,
}

impl Read for Halting<'_> {
    fn read(&mut self, buf: &mut [u8]) -> io::Result<usize> {
        let Some(turn) = self.turns.get(self.next) else {
            return Ok(0);
        };
        self.next += 1;
        match (turn, buf.first_mut()) {
            (Turn::Fails(kind), _) => Err((*kind).into()),
            (Turn::Gives(byte), Some(first)) => {
                *first = *byte;
                Ok(1)
            }
            (Turn::Gives(_), None) => Ok(0),
        }
    }
}

// What is to come of the turns.
#[derive(Clone, Copy)]
enum Wanted<'a> {
    Bytes(&'a [u8]),
    Failed,
    NoMemory,
}

const AGAIN: Turn = Turn::Fails(ErrorKind::Interrupted);

const TURNS: [Turn; 5] = [AGAIN, Turn::Gives(1), AGAIN, AGAIN, Turn::Gives(2)];

const BROKEN: [Turn; 2] = [Turn::Gives(1), Turn::Fails(ErrorKind::NotFound)];

const FULL: [Turn; 2] = [Turn::Gives(1), Turn::Fails(ErrorKind::OutOfMemory)];

// Whether this is read of the turns, and no more than so many bytes.
fn front_is(alloc: Global, turns: &[Turn], cap: u64, wanted: Wanted<'_>) -> bool {
    let mut reader = Halting { turns, next: 0 };
    match (read_front(alloc, &mut reader, cap), wanted) {
        (Ok(bytes), Wanted::Bytes(all)) => bytes.as_slice() == all,
        (Err(ShelfFault::Failed), Wanted::Failed) => true,
        (Err(ShelfFault::NoMemory), Wanted::NoMemory) => true,
        _ => false,
    }
}

#[test]
fn interrupted_reads_are_tried_again(rt: HostRuntime) {
    let alloc = rt.alloc();
    assert!(rt; front_is(alloc, &TURNS, 9, Wanted::Bytes(b"\x01\x02")));
    assert!(rt; front_is(alloc, &TURNS, 1, Wanted::Bytes(b"\x01")));
    assert!(rt; front_is(alloc, &[AGAIN], 9, Wanted::Bytes(b"")));
    assert!(rt; front_is(alloc, &BROKEN, 9, Wanted::Failed));
    assert!(rt; front_is(alloc, &FULL, 9, Wanted::NoMemory));
}
