// Pairs in order.
ghost use Rattle.std.specs.Prelude.{◌≡◌, true};

use dsr_rows::Pairs;
use std::alloc::Global;

// What pairs in order are asked, with the answer behind it.
#[derive(Clone, Copy)]
enum Question {
    Len(usize),
    Room(usize),
    At(usize, Option<(u32, u64)>),
    Has(u32, u64, bool),
    CountOf(u32, usize),
    First(Option<(u32, u64)>),
    After(u32, u64, Option<(u32, u64)>),
    AfterNear(u32, u64, usize, Option<(u32, u64)>),
    NextOf(u32, u64, Option<u64>),
    GreatestOf(u32, Option<u64>),
}

// Pushed into room for six pairs, so that the last isn't taken.
const PUSHED: [(u32, u64); 7] = [(2, 5), (0, 9), (2, 1), (2, 5), (7, 0), (2, 3), (1, 1)];

// What (0, 9), (2, 1), (2, 3), (2, 5) and (7, 0) answer.
const ASKED: [Question; 16] = [
    Question::Len(5),
    Question::Room(6),
    Question::At(1, Some((2, 1))),
    Question::Has(2, 5, true),
    Question::Has(7, 0, true),
    Question::Has(2, 4, false),
    Question::Has(1, 1, false),
    Question::CountOf(2, 3),
    Question::CountOf(0, 1),
    Question::CountOf(1, 0),
    Question::First(Some((0, 9))),
    Question::After(2, 1, Some((2, 3))),
    Question::After(2, 5, Some((7, 0))),
    Question::After(7, 0, None),
    Question::GreatestOf(2, Some(5)),
    Question::GreatestOf(1, None),
];

const PUSHED_BESIDE: [(u32, u64); 4] = [(3, 8), (1, 6), (1, 2), (1, 4)];

// What follows (1, 2), (1, 4), (1, 6) and (3, 8), near any place, and their second parts.
const ASKED_NEAR: [Question; 16] = [
    Question::AfterNear(1, 4, 1, Some((1, 6))),
    Question::AfterNear(1, 6, 2, Some((3, 8))),
    Question::AfterNear(1, 4, 0, Some((1, 6))),
    Question::AfterNear(1, 4, 3, Some((1, 6))),
    Question::AfterNear(1, 4, 4, Some((1, 6))),
    Question::AfterNear(1, 6, usize::MAX, Some((3, 8))),
    Question::AfterNear(3, 8, 3, None),
    Question::AfterNear(3, 8, 0, None),
    Question::AfterNear(1, 5, 1, Some((1, 6))),
    Question::AfterNear(0, 0, 0, Some((1, 2))),
    Question::NextOf(1, 0, Some(2)),
    Question::NextOf(1, 4, Some(4)),
    Question::NextOf(1, 5, Some(6)),
    Question::NextOf(1, 7, None),
    Question::NextOf(2, 0, None),
    Question::NextOf(3, 8, Some(8)),
];

fn push(pairs: &mut Pairs, first: u32, second: u64) {
    if pairs.len() < pairs.room() {
        pairs.push(first, second);
    }
}

fn answers(pairs: &Pairs, question: Question) -> bool
    requires { pairs.now.ordered ≡ true }
{
    match question {
        Question::Len(len) => pairs.len() == len,
        Question::Room(room) => pairs.room() == room,
        Question::At(index, pair) => pairs.at(index) == pair,
        Question::Has(first, second, is) => pairs.has(first, second) == is,
        Question::CountOf(first, count) => pairs.count_of(first) == count,
        Question::First(pair) => pairs.first() == pair,
        Question::After(first, second, pair) => pairs.after(first, second) == pair,
        Question::AfterNear(first, second, near, pair) => {
            pairs.after_near(first, second, near) == pair
        }
        Question::NextOf(first, from, second) => pairs.next_of(first, from) == second,
        Question::GreatestOf(first, second) => pairs.greatest_of(first) == second,
    }
}

// Whether all is answered once the pairs are in order, and nothing is left of them when they are
// taken away.
fn all_answer(pairs: &mut Pairs, pushed: &[(u32, u64)], asked: &[Question]) -> bool {
    for (first, second) in pushed {
        push(pairs, *first, *second);
    }
    pairs.sort();
    for question in asked {
        if !answers(pairs, *question) {
            return false;
        }
    }
    pairs.clear();
    pairs.len() == 0 && pairs.first().is_none()
}

fn pairs_answer(alloc: Global, room: usize, pushed: &[(u32, u64)], asked: &[Question]) -> bool {
    match Pairs::new(alloc, room) {
        Ok(mut pairs) => all_answer(&mut pairs, pushed, asked),
        Err(_) => false,
    }
}

// Takes a pair out and puts another in: which of both changed anything.
fn exchange(pairs: &mut Pairs, gone: (u32, u64), come: (u32, u64)) -> (bool, bool)
    requires { pairs.old.ordered ≡ true }
    ensures { pairs.new.ordered ≡ true }
{
    let was_there = pairs.remove(gone.0, gone.1);
    if pairs.len() < pairs.room() {
        (was_there, pairs.insert(come.0, come.1))
    } else {
        (was_there, false)
    }
}

// What is left of (1, 2), (1, 4), (1, 6) and (3, 8), of which the third goes, and what comes.
fn exchange_all(pairs: &mut Pairs) -> bool {
    for (first, second) in &PUSHED_BESIDE {
        push(pairs, *first, *second);
    }
    pairs.sort();
    let changes = exchange(pairs, (1, 6), (2, 4)) == (true, true)
        && exchange(pairs, (1, 5), (0, 0)) == (false, true)
        && exchange(pairs, (9, 9), (2, 4)) == (false, false);
    changes
        && pairs.len() == 5
        && pairs.first() == Some((0, 0))
        && pairs.after(1, 4) == Some((2, 4))
        && pairs.last_before(2, 4) == Some(1)
        && pairs.last_before(1, 4).is_none()
}

pub fn are_exchanged_in_order(alloc: Global) -> bool {
    match Pairs::new(alloc, 6) {
        Ok(mut pairs) => exchange_all(&mut pairs),
        Err(_) => false,
    }
}

pub fn are_asked_in_order(alloc: Global) -> bool {
    pairs_answer(alloc, 6, &PUSHED, &ASKED) && pairs_answer(alloc, 4, &PUSHED_BESIDE, &ASKED_NEAR)
}
