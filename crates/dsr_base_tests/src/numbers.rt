// Numbers for some places, and counts of sources.
use dsr_rows::{Row, Tally};
use std::alloc::{AllocError, Global};

const GREATEST: u64 = 18_446_744_073_709_551_615;

// A call on a row, with its answer behind its arguments.
#[derive(Clone, Copy)]
enum Call {
    Set(u64, u64),
    /// Sets the number, and tells whether there was none.
    Put(u64, u64, bool),
    Forget(u64),
    Join(u64, u64),
    Get(u64, Option<u64>),
    Count(u64),
    Next(u64, Option<u64>),
    Places(u64),
    Clear,
}

// Numbers are kept, changed and forgotten in a row of 70 places.
const KEPT: [Call; 16] = [
    Call::Set(3, GREATEST),
    Call::Set(69, 0),
    Call::Set(3, 7),
    Call::Count(2),
    Call::Get(3, Some(7)),
    Call::Get(69, Some(0)),
    Call::Next(0, Some(3)),
    Call::Next(4, Some(69)),
    Call::Forget(3),
    Call::Get(3, None),
    Call::Count(1),
    Call::Next(0, Some(69)),
    Call::Clear,
    Call::Count(0),
    Call::Next(0, None),
    Call::Places(70),
];

// Numbers of one and of two words are kept, side by side and at the end of 1,000 places.
const LARGE: [Call; 15] = [
    Call::Set(2, 4_294_967_296),
    Call::Set(3, 4_294_967_295),
    Call::Set(900, GREATEST),
    Call::Set(999, 0),
    Call::Get(2, Some(4_294_967_296)),
    Call::Get(3, Some(4_294_967_295)),
    Call::Get(900, Some(GREATEST)),
    Call::Get(899, None),
    Call::Get(999, Some(0)),
    Call::Count(4),
    Call::Set(900, 5),
    Call::Set(2, 0),
    Call::Get(900, Some(5)),
    Call::Get(2, Some(0)),
    Call::Count(4),
];

// Nothing is left of numbers that were forgotten, in a row of ten places.
const FORGOTTEN: [Call; 13] = [
    Call::Set(4, 12_884_901_895),
    Call::Set(8, 4_294_967_297),
    Call::Forget(4),
    Call::Get(4, None),
    Call::Get(8, Some(4_294_967_297)),
    Call::Set(4, 0),
    Call::Get(4, Some(0)),
    Call::Clear,
    Call::Get(4, None),
    Call::Get(8, None),
    Call::Set(8, 0),
    Call::Get(4, None),
    Call::Get(8, Some(0)),
];

// Zeros come to places without a number, to those that had one, and beside them, in a row of 128
// places.
const JOINED: [Call; 14] = [
    Call::Join(1, 9),
    Call::Get(64, Some(0)),
    Call::Get(65, None),
    Call::Get(67, Some(0)),
    Call::Set(66, 7),
    Call::Set(70, 8),
    Call::Set(3, 4_294_967_296),
    Call::Join(1, 0x8000_0000_0000_0004),
    Call::Get(66, Some(0)),
    Call::Get(70, Some(8)),
    Call::Get(127, Some(0)),
    Call::Get(3, Some(4_294_967_296)),
    Call::Count(6),
    Call::Join(2, 1),
];

// It is told whether a place had no number before.
const PUT: [Call; 6] = [
    Call::Put(3, 5, true),
    Call::Put(3, 4_294_967_296, false),
    Call::Get(3, Some(4_294_967_296)),
    Call::Forget(3),
    Call::Put(3, 0, true),
    Call::Get(3, Some(0)),
];

fn set(row: &mut Row, place: u64, number: u64) {
    if place < row.places() {
        row.set(place, number);
    }
}

fn put(row: &mut Row, place: u64, number: u64) -> bool {
    place < row.places() && row.put(place, number)
}

fn forget(row: &mut Row, place: u64) {
    if place < row.places() {
        row.forget(place);
    }
}

fn join(row: &mut Row, at: u64, bits: u64) {
    if at < row.places() / 64 {
        row.join(64 * at, bits);
    }
}

fn get(row: &Row, place: u64) -> Option<u64> {
    if place < row.places() {
        row.get(place)
    } else {
        None
    }
}

// Whether a call answers so, where it has an answer.
fn answers(row: &mut Row, call: Call) -> bool {
    match call {
        Call::Get(place, number) => return get(row, place) == number,
        Call::Put(place, number, is_new) => return put(row, place, number) == is_new,
        Call::Count(count) => return row.count() == count,
        Call::Next(from, place) => return row.next(from) == place,
        Call::Places(places) => return row.places() == places,
        Call::Set(place, number) => set(row, place, number),
        Call::Forget(place) => forget(row, place),
        Call::Join(at, bits) => join(row, at, bits),
        Call::Clear => row.clear(),
    }
    true
}

// A copy has the numbers of the row, and none of its own.
pub fn are_copied(alloc: Global) -> Result<bool, AllocError> {
    let mut row = Row::new(alloc, 70)?;
    let mut copy = Row::new(alloc, 70)?;
    set(&mut row, 3, GREATEST);
    set(&mut row, 69, 0);
    set(&mut copy, 3, 5);
    set(&mut copy, 64, 1);
    if copy.places() == row.places() {
        copy.copy_from(&row);
    }
    let numbers = [get(&copy, 3), get(&copy, 64), get(&copy, 69)];
    Ok(copy.count() == 2 && numbers == [Some(GREATEST), None, Some(0)])
}

fn all_answer(alloc: Global, places: u64, calls: &[Call]) -> bool {
    let Ok(mut row) = Row::new(alloc, places) else {
        return false;
    };
    let mut right = true;
    for call in calls {
        right = right && answers(&mut row, *call);
    }
    right
}

pub fn places_have_numbers(alloc: Global) -> bool {
    all_answer(alloc, 70, &KEPT)
        && all_answer(alloc, 1000, &LARGE)
        && all_answer(alloc, 10, &FORGOTTEN)
        && all_answer(alloc, 128, &JOINED)
        && all_answer(alloc, 70, &PUT)
}

fn raise(tally: &mut Tally, target: u64) {
    if target < tally.targets() && tally.count(target) < 9 {
        tally.raise(target);
    }
}

fn lower(tally: &mut Tally, target: u64) {
    if target < tally.targets() && tally.count(target) > 0 {
        tally.lower(target);
    }
}

// Whether the targets, three of them, have so many sources.
fn has_counts(tally: &Tally, counts: [u32; 3]) -> bool {
    tally.targets() == 3
        && tally.count(0) == counts[0]
        && tally.count(1) == counts[1]
        && tally.count(2) == counts[2]
}

fn counts_sources(tally: &mut Tally) -> bool {
    for target in [0, 2, 2] {
        raise(tally, target);
    }
    for target in [0, 1] {
        lower(tally, target);
    }
    let counted = has_counts(tally, [0, 0, 2]);
    tally.clear();
    counted && has_counts(tally, [0, 0, 0])
}

pub fn targets_have_sources(alloc: Global) -> bool {
    match Tally::new(alloc, 3) {
        Ok(mut tally) => counts_sources(&mut tally),
        Err(_) => false,
    }
}
