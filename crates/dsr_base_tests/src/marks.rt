// Sets of slots.
use dsr_rows::Marks;
use std::alloc::Global;

// A call on 130 slots, with its answer behind its arguments.
#[derive(Clone, Copy)]
enum Call {
    Add(u64, bool),
    Remove(u64, bool),
    Join(u64, u64),
    Has(u64, bool),
    Count(u64),
    Next(u64, Option<u64>),
    NextAbsent(u64, Option<u64>),
    Greatest(Option<u64>),
    GreatestAbsent(Option<u64>),
    Clear,
}

const CALLS: [Call; 33] = [
    Call::Greatest(None),
    Call::GreatestAbsent(Some(129)),
    // the first, the last and two in the middle
    Call::Add(0, true),
    Call::Add(63, true),
    Call::Add(64, true),
    Call::Add(129, true),
    Call::Add(64, false),
    // behind the last
    Call::Add(130, false),
    Call::Count(4),
    Call::Has(63, true),
    Call::Has(62, false),
    Call::Next(1, Some(63)),
    Call::Next(65, Some(129)),
    Call::Next(130, None),
    Call::NextAbsent(63, Some(65)),
    Call::NextAbsent(129, None),
    Call::Greatest(Some(129)),
    Call::GreatestAbsent(Some(128)),
    Call::Remove(129, true),
    Call::Remove(129, false),
    Call::Count(3),
    Call::Clear,
    Call::Count(0),
    Call::Next(0, None),
    Call::NextAbsent(0, Some(0)),
    // bits 1, 2 and 63 of the second word, of which one is marked already; the third word has
    // slots that aren't there
    Call::Add(65, true),
    Call::Join(1, 0x8000_0000_0000_0006),
    Call::Join(2, 1),
    Call::Count(3),
    Call::Next(0, Some(65)),
    Call::Has(66, true),
    Call::Greatest(Some(127)),
    Call::NextAbsent(65, Some(67)),
];

// Does nothing where not all slots of the word are there.
fn join(marks: &mut Marks, at: u64, bits: u64) {
    if at < marks.slots() / 64 {
        marks.join(at, bits);
    }
}

// Whether a call answers so. A call behind the last slot answers as where nothing is marked.
fn answers(marks: &mut Marks, call: Call) -> bool {
    match call {
        Call::Add(slot, is_new) => (slot < marks.slots() && marks.add(slot)) == is_new,
        Call::Remove(slot, was) => (slot < marks.slots() && marks.remove(slot)) == was,
        Call::Join(at, bits) => {
            join(marks, at, bits);
            true
        }
        Call::Has(slot, is) => (slot < marks.slots() && marks.has(slot)) == is,
        Call::Count(count) => marks.count() == count,
        Call::Next(from, slot) => marks.next(from) == slot,
        Call::NextAbsent(from, slot) => marks.next_absent(from) == slot,
        Call::Greatest(slot) => marks.greatest() == slot,
        Call::GreatestAbsent(slot) => marks.greatest_absent() == slot,
        Call::Clear => {
            marks.clear();
            true
        }
    }
}

pub fn all_answer(alloc: Global) -> bool {
    let Ok(mut marks) = Marks::new(alloc, 130) else {
        return false;
    };
    let mut right = true;
    for call in CALLS {
        right = right && answers(&mut marks, call);
    }
    right
}
