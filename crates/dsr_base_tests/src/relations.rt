// The pairs of a relation, with the sources of each target.
ghost use Rattle.std.specs.Prelude.{◌≡◌, ◌≤◌, ◌+◌, ◌++◌, ◌∷◌, [], IfOk, false, true, length};

use dsr_related::Relation;
use dsr_rows::Row;
use std::alloc::{AllocError, Global};

// What a relation is asked, with the answer behind it.
#[derive(Clone, Copy)]
enum Question {
    Has(u32, u64, bool),
    TargetsOf(u32, u64),
    First(Option<(u32, u64)>),
    After(u32, u64, Option<(u32, u64)>),
    AfterNear(u32, u64, usize, Option<(u32, u64)>),
    NextTarget(u32, u64, Option<u64>),
    GreatestTarget(u32, Option<u64>),
    SourcesOf(u64, u64),
    GreatestSource(u64, Option<u32>),
}

// What (0, 2), (3, 0) and (3, 1) answer.
const ASKED_OF_TWO: [Question; 7] = [
    Question::Has(3, 1, true),
    Question::Has(1, 3, false),
    Question::TargetsOf(3, 2),
    Question::First(Some((0, 2))),
    Question::After(0, 2, Some((3, 0))),
    Question::GreatestTarget(3, Some(1)),
    Question::GreatestTarget(1, None),
];

// What (0, 2), (3, 0), (3, 2) and (7, 2) answer: of sources, and of what follows, near any place.
const ASKED_OF_MANY: [Question; 17] = [
    Question::SourcesOf(0, 1),
    Question::SourcesOf(1, 0),
    Question::SourcesOf(2, 3),
    Question::SourcesOf(9, 0),
    Question::GreatestSource(0, Some(3)),
    Question::GreatestSource(1, None),
    Question::GreatestSource(2, Some(7)),
    Question::GreatestSource(9, None),
    Question::AfterNear(3, 0, 1, Some((3, 2))),
    Question::AfterNear(3, 0, 0, Some((3, 2))),
    Question::AfterNear(3, 0, 4, Some((3, 2))),
    Question::AfterNear(7, 2, 3, None),
    Question::AfterNear(7, 2, 9, None),
    Question::NextTarget(3, 0, Some(0)),
    Question::NextTarget(3, 1, Some(2)),
    Question::NextTarget(3, 3, None),
    Question::NextTarget(1, 0, None),
];

// What (0, 2), (3, 0) and (7, 2) answer where each source has one target at most.
const ASKED_OF_ONE: [Question; 14] = [
    Question::Has(3, 0, true),
    Question::Has(3, 2, false),
    Question::TargetsOf(3, 1),
    Question::TargetsOf(4, 0),
    Question::First(Some((0, 2))),
    Question::After(0, 1, Some((0, 2))),
    Question::AfterNear(3, 0, 1, Some((7, 2))),
    Question::NextTarget(3, 0, Some(0)),
    Question::NextTarget(3, 1, None),
    Question::GreatestTarget(7, Some(2)),
    Question::SourcesOf(2, 2),
    Question::SourcesOf(1, 0),
    Question::GreatestSource(2, Some(7)),
    Question::GreatestSource(1, None),
];

// (0, 2), (3, 0) and (3, 1), not in order, and one of them twice.
fn two(alloc: Global) -> Result<Relation, AllocError>
    ensures { IfOk result (λ relation. relation.pairs.ordered ≡ true) }
{
    let mut relation = Relation::new(alloc, 5, 0)?;
    relation.push(3, 1);
    relation.push(0, 2);
    relation.push(3, 0);
    relation.push(3, 1);
    relation.finish();
    Ok(relation)
}

// (0, 2), (3, 0), (3, 2) and (7, 2), not in order, and one of them twice. The sources of the first
// targets are counted, three or none.
fn many(alloc: Global, is_counted: bool) -> Result<Relation, AllocError>
    ensures { IfOk result (λ relation. relation.pairs.ordered ≡ true) }
{
    let mut relation = Relation::new(alloc, 5, if is_counted { 3 } else { 0 })?;
    relation.push(3, 2);
    relation.push(7, 2);
    relation.push(3, 0);
    relation.push(0, 2);
    relation.push(3, 2);
    relation.finish();
    Ok(relation)
}

// (0, 2), (3, 0) and (7, 2), where each source has one target at most. The sources of the first
// targets are counted, three or none.
fn one(alloc: Global, is_counted: bool) -> Result<Relation, AllocError>
    ensures { IfOk result (λ relation. relation.pairs.ordered ≡ true) }
{
    let mut relation = Relation::functional(alloc, 8, if is_counted { 3 } else { 0 })?;
    relation.push(0, 2);
    relation.push(3, 0);
    relation.push(7, 2);
    relation.finish();
    Ok(relation)
}

// The same three pairs, copied from a row.
fn copied(alloc: Global) -> Result<Relation, AllocError>
    ensures { IfOk result (λ relation. relation.pairs.ordered ≡ true) }
{
    let mut row = Row::new(alloc, 8)?;
    row.set(0, 2);
    row.set(3, 0);
    row.set(7, 2);
    let mut relation = Relation::functional(alloc, 8, 0)?;
    if relation.may_copy(&row) {
        relation.copy_from(&row);
    }
    relation.finish();
    Ok(relation)
}

fn answers(relation: &Relation, question: Question) -> bool
    requires { relation.now.pairs.ordered ≡ true }
{
    match question {
        Question::Has(first, second, is) => relation.has(first, second) == is,
        Question::TargetsOf(first, count) => relation.targets_of(first) == count,
        Question::First(pair) => relation.first() == pair,
        Question::After(first, second, pair) => relation.after(first, second) == pair,
        Question::AfterNear(first, second, near, pair) => {
            relation.after_near(first, second, near) == pair
        }
        Question::NextTarget(first, from, second) => relation.next_target(first, from) == second,
        Question::GreatestTarget(first, second) => relation.greatest_target(first) == second,
        Question::SourcesOf(second, count) => relation.sources_of(second) == count,
        Question::GreatestSource(second, first) => relation.greatest_source(second) == first,
    }
}

// Whether all is answered, and nothing is left of the pairs when they are taken away. The one
// function that drops a relation, since that costs most to prove.
fn all_answer(related: Result<Relation, AllocError>, asked: &[Question]) -> bool
    requires { IfOk related (λ relation. relation.pairs.ordered ≡ true) }
{
    let Ok(mut relation) = related else {
        return false;
    };
    let mut right = true;
    for question in asked {
        right = right && answers(&relation, *question);
    }
    relation.clear();
    right && !relation.has(3, 0)
}

pub fn are_asked_in_order(alloc: Global) -> bool {
    all_answer(two(alloc), &ASKED_OF_TWO)
        && all_answer(many(alloc, true), &ASKED_OF_MANY)
        && all_answer(many(alloc, false), &ASKED_OF_MANY)
        && all_answer(one(alloc, true), &ASKED_OF_ONE)
        && all_answer(one(alloc, false), &ASKED_OF_ONE)
        && all_answer(copied(alloc), &ASKED_OF_ONE)
}
