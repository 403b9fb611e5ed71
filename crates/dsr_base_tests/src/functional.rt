// Pairs of which no two have the same first part.
use dsr_rows::{Functional, Row};
use std::alloc::{AllocError, Global};

// A call on a list with room for 70 pairs, with its answer behind its arguments.
#[derive(Clone, Copy)]
enum Call {
    Push(u32, u64),
    Rises,
    Room(usize),
    First(Option<(u32, u64)>),
    /// The first pair with a first part from this one on.
    From(u64, Option<(u32, u64)>),
    Has(u32, u64, bool),
    CountOf(u32, usize),
    GreatestOf(u32, Option<u64>),
    After(u32, u64, Option<(u32, u64)>),
    NextOf(u32, u64, Option<u64>),
    Clear,
}

// (2, 5), (63, 0) and (64, the greatest number) are found, and then taken away.
const SECONDS: [Call; 26] = [
    Call::Room(70),
    Call::First(None),
    Call::From(0, None),
    Call::Push(2, 5),
    Call::Push(63, 0),
    // not behind all others
    Call::Push(62, 1),
    Call::Push(64, 18_446_744_073_709_551_615),
    // beyond the room
    Call::Push(70, 1),
    Call::Rises,
    Call::Has(2, 5, true),
    Call::Has(2, 4, false),
    Call::Has(62, 1, false),
    Call::Has(70, 1, false),
    Call::CountOf(2, 1),
    Call::CountOf(62, 0),
    Call::CountOf(70, 0),
    Call::First(Some((2, 5))),
    Call::From(3, Some((63, 0))),
    Call::From(2, Some((2, 5))),
    Call::From(65, None),
    Call::GreatestOf(2, Some(5)),
    Call::GreatestOf(3, None),
    Call::Clear,
    Call::Room(70),
    Call::First(None),
    Call::Has(2, 5, false),
];

// What follows (2, 5) and (64, 7) is found.
const FOLLOWING: [Call; 12] = [
    Call::Push(2, 5),
    Call::Push(64, 7),
    Call::After(0, 9, Some((2, 5))),
    Call::After(2, 4, Some((2, 5))),
    Call::After(2, 5, Some((64, 7))),
    Call::After(2, 6, Some((64, 7))),
    Call::After(64, 7, None),
    Call::After(u32::MAX, 0, None),
    Call::NextOf(2, 0, Some(5)),
    Call::NextOf(2, 5, Some(5)),
    Call::NextOf(2, 6, None),
    Call::NextOf(3, 0, None),
];

// Appends a pair where it comes behind all others.
fn push(list: &mut Functional, first: u32, second: u64) {
    if (first as usize) < list.room() && list.next(u64::from(first)).is_none() {
        list.push(first, second);
    }
}

// Whether a call answers so, where it has an answer.
fn answers(list: &mut Functional, call: Call) -> bool {
    match call {
        Call::Push(first, second) => push(list, first, second),
        Call::Rises => list.rises(),
        Call::Room(room) => return list.room() == room,
        Call::First(pair) => return list.first() == pair,
        Call::From(from, pair) => return list.next(from) == pair,
        Call::Has(first, second, is) => return list.has(first, second) == is,
        Call::CountOf(first, count) => return list.count_of(first) == count,
        Call::GreatestOf(first, second) => return list.greatest_of(first) == second,
        Call::After(first, second, pair) => return list.after(first, second) == pair,
        Call::NextOf(first, from, second) => return list.next_of(first, from) == second,
        Call::Clear => list.clear(),
    }
    true
}

fn all_answer(alloc: Global, calls: &[Call]) -> bool {
    let Ok(mut list) = Functional::new(alloc, 70) else {
        return false;
    };
    let mut right = true;
    for call in calls {
        right = right && answers(&mut list, *call);
    }
    right
}

// The pairs of a row take the place of those that were there.
pub fn are_copied(alloc: Global) -> Result<bool, AllocError> {
    let mut row = Row::new(alloc, 70)?;
    if row.places() == 70 {
        row.set(2, 5);
        row.set(64, 7);
    }
    let mut list = Functional::new(alloc, 70)?;
    push(&mut list, 3, 1);
    if list.room() as u64 == row.places() {
        list.copy_from(&row);
    }
    let mut right = true;
    for call in FOLLOWING.iter().skip(2) {
        right = right && answers(&mut list, *call);
    }
    Ok(right && !list.has(3, 1))
}

pub fn are_asked_in_order(alloc: Global) -> bool {
    all_answer(alloc, &SECONDS) && all_answer(alloc, &FOLLOWING)
}
