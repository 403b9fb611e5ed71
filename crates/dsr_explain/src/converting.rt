// The command `from-c`.
use crate::answers::{Answer, Shown};
use dsr_from_c::{push_specification, structures_of};
use dsr_ir::NoMemory;
use dsr_script::{Status, Verdict};
use dsr_store::{Shelf, ShelfFault};
use std::alloc::Global;

// The most bytes of what gdb printed.
const LIMIT: u64 = 1_048_576;

// As many bytes as show that there are more.
const MORE: u64 = 1_048_577;

const LONG: &str = "what gdb printed has at most 1,048,576 bytes\n";

const ASK: &str = ": error: no structure stands here: print some by \
gdb -batch -ex 'ptype /o struct NAME' PROGRAM\n";

// Answers a first specification for the structures in what gdb printed, or that there are none.
fn convert_text(answer: &mut Answer, name: &str, printed: &str) {
    match structures_of(answer.allocator(), printed) {
        Ok(structures) => {
            if !push_specification(&mut answer.text, &structures) {
                answer.refuse(Status::Said(Verdict::SpecRefused), name);
                answer.told.push(ASK);
            }
        }
        Err(_) => answer.cut(),
    }
}

// The same for the bytes of a file.
fn convert_bytes(answer: &mut Answer, name: &str, bytes: &[u8]) {
    if bytes.len() as u64 > LIMIT {
        answer.refuse(Status::TooLong, LONG);
        return;
    }
    match String::from_utf8_lossy(answer.allocator(), bytes) {
        Ok(printed) => convert_text(answer, name, printed.as_str()),
        Err(_) => answer.cut(),
    }
}

// The same for a file.
fn convert_file<F: Shelf>(answer: &mut Answer, shelf: &mut F, name: &str) {
    match shelf.load(answer.allocator(), name, MORE) {
        Ok(bytes) => convert_bytes(answer, name, &bytes),
        Err(ShelfFault::Failed) => answer.refuse(Status::StoreFailed, ""),
        Err(ShelfFault::NoMemory) => answer.cut(),
    }
}

/// A first specification for the structures that gdb printed into a file.
pub fn from_c<F: Shelf>(alloc: Global, shelf: &mut F, name: &str) -> Result<Shown, NoMemory> {
    let mut answer = Answer::new(alloc);
    convert_file(&mut answer, shelf, name);
    answer.whole()
}
