// The walk from the first member to what each member waits for, until it comes to one twice.
ghost use Rattle.std.specs.Prelude.{◌≡◌, ◌≤◌, ◌<◌, ◌++◌, [], ◌∷◌, IfOk, IsSomeAnd, MatchOption, None, Some, drop, length, slice_get};
ghost use Rattle.dsr_meaning.specs.Counting.{IsIn};
ghost use Rattle.dsr_plan_theory.specs.StuckSets.{IsAmong, IsCycle, awaited_by};
ghost use Rattle.dsr_removal.specs.Members.{EachWaits, WaitsAmong};

use dsr_ir::NoMemory;
use dsr_plan_theory::{StuckMember, StuckWay};
use std::alloc::Global;

// Which member the first way breaks.
fn first_broken(ways: &[StuckWay]) -> Option<u32>
    ensures { result ≡ awaited_by None ways.now }
{
    match ways {
        [] => None,
        [way, ..] => Some(way.breaks),
    }
}

// What the member waits for.
fn awaited(member: &StuckMember) -> Option<u32>
    ensures { result ≡ awaited_by member.now.relied_by member.now.ways }
{
    match member.relied_by {
        Some(who) => Some(who),
        None => first_broken(member.ways.items()),
    }
}

// What the member with this number waits for.
fn next(members: &[StuckMember], number: u32) -> Option<u32>
    ensures { EachWaits members.now → IsAmong members.now number
        → IsSomeAnd result (WaitsAmong members.now number) }
{
    for member in members {
        if member.constraint == number {
            return awaited(member);
        }
    }
    None
}

// Where the path has the number.
fn place_in(path: &[u32], number: u32) -> Option<usize>
    ensures { MatchOption result (IsIn number path.now → ⊥)
        (λ place. slice_get path.now place ≡ Some number) }
{
    for (place, other) in path.iter().enumerate() {
        if *other == number {
            return Some(place);
        }
    }
    None
}

// The path from the place on, and the number once more.
fn closed(alloc: Global, path: &[u32], place: usize, number: u32) -> Result<Vec<u32>, NoMemory>
    requires { place ≤ length path.now }
    ensures { IfOk result (λ numbers. numbers.items ≡ drop place path.now ++ number ∷ []) }
{
    let mut numbers = Vec::from_slice(alloc, &path[place..])?;
    numbers.push(number)?;
    Ok(numbers)
}

/// The members that wait for each other, to which the walk from the first one comes; the last is
/// the first once more.
pub fn cycle(alloc: Global, members: &[StuckMember]) -> Result<Vec<u32>, NoMemory>
    requires some { 0 < length members.now }
    requires waits { EachWaits members.now }
    ensures { IfOk result (λ numbers. IsCycle members.now numbers.items) }
{
    let mut path = Vec::new(alloc);
    let mut at = members[0].constraint;
    loop {
        if let Some(place) = place_in(&path, at) {
            return closed(alloc, &path, place, at);
        }
        path.push(at)?;
        at = next(members, at).unwrap();
    }
}
