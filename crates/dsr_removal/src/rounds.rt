// Rounds, in each of which all constraints are placed that may be first among those that are left.
ghost use Rattle.std.specs.Prelude.{◌≡◌, ◌≤◌, ◌^◌, All, IfOk, length, map, slice_index_or, None};
ghost use Rattle.dsr_graph.specs.Graphs.{IsGraphOf, IsOwnerIn};
ghost use Rattle.dsr_graph_theory.specs.Owners.{Owner as OwnerOf};
ghost use Rattle.dsr_meaning.specs.Typed.{IsTyped};
ghost use Rattle.dsr_placement.specs.Placing.{IsConstraintIn, IsLeft};
ghost use Rattle.dsr_removal.specs.Rounds as said;
ghost use Rattle.dsr_removal.specs.Rounds.{AreNext, AreSettled, IsNext, is_late};

use dsr_graph::Graph;
use dsr_ir::{Constraint, NoMemory, Spec};
use dsr_placement::may_be_first;
use std::alloc::Global;

/// In which round each constraint is placed, counted from 0; none for one that no round places.
#[derive(Drop)]
pub struct Placed {
    pub rounds: Vec<Option<u32>>,
    /// How many rounds place a constraint.
    pub count: u32,
}

fn is_late(round: Option<u32>, number: u32) -> bool
    ensures { result ≡ is_late number round }
{
    match round {
        Some(round) => number <= round,
        None => true,
    }
}

// Whether each constraint is left when the round with the number begins.
pub fn left_at(alloc: Global, rounds: &[Option<u32>], number: u32) -> Result<Vec<bool>, NoMemory>
    ensures { IfOk result (λ left. left.items ≡ map (is_late number) rounds.now) }
{
    let mut left = Vec::new(alloc);
    for round in rounds {
        left.push(is_late(*round, number))?;
    }
    Ok(left)
}

// The round of the constraint with this number.
pub fn round_at(rounds: &[Option<u32>], number: usize) -> Option<u32>
    ensures { result ≡ slice_index_or rounds.now number None }
{
    match rounds.get(number) {
        Some(round) => *round,
        None => None,
    }
}

// How many constraints have no round.
fn unplaced(rounds: &[Option<u32>]) -> usize
    ensures { result ≡ said.unplaced rounds.now }
{
    let mut count = 0;
    for round in rounds {
        if round.is_none() {
            count += 1;
        }
    }
    count
}

// What a round may place.
#[derive(Clone, Copy)]
struct Turn<'a> {
    graph: &'a Graph,
    left: &'a [bool],
    number: u32,
}

impl Turn<'_> {
    // The constraint's round, after this one.
    fn next(
        &self,
        alloc: Global,
        number: u32,
        constraint: &Constraint,
        before: Option<u32>,
    ) -> Result<Option<u32>, NoMemory>
        requires few { length self.now.left.now ≤ 2 ^ 32 }
        requires there { IsConstraintIn self.now.graph.now (length self.now.left.now) number constraint.now }
        requires conjs { length constraint.now.conjs ≤ 16 }
        requires literals { All (λ conj. length conj.literals ≤ 8) constraint.now.conjs }
        ensures { IfOk result (λ after. (owner : OwnerOf) → IsOwnerIn self.now.graph.now number owner
            → length self.now.left.now ≡ length owner.spec.constraints → owner.constraint ≡ constraint.now
            → IsNext owner.spec (IsLeft self.now.left.now) self.now.number number owner.constraint before after) }
    {
        if before.is_some() {
            return Ok(before);
        }
        if may_be_first(alloc, self.graph, number, constraint, self.left)? {
            return Ok(Some(self.number));
        }
        Ok(None)
    }

    // All constraints' rounds, after this one.
    fn all_next(
        &self,
        alloc: Global,
        spec: &Spec,
        rounds: &[Option<u32>],
    ) -> Result<Vec<Option<u32>>, NoMemory>
        requires typed { IsTyped spec.now }
        requires graph { IsGraphOf spec.now self.now.graph.now }
        requires as_many { length rounds.now ≡ length spec.now.constraints }
        requires left { self.now.left.now ≡ map (is_late self.now.number) rounds.now }
        ensures { IfOk result (λ next. AreNext spec.now rounds.now self.now.number next.items) }
    {
        let mut next = Vec::new(alloc);
        for (number, constraint) in spec.constraints.items().iter().enumerate() {
            let before = round_at(rounds, number);
            next.push(self.next(alloc, number as u32, constraint, before)?)?;
        }
        Ok(next)
    }
}

// All constraints' rounds, after the one with this number. They are a new list, so that each
// constraint is judged by what was left before the round.
fn next_rounds(
    alloc: Global,
    graph: &Graph,
    spec: &Spec,
    rounds: &[Option<u32>],
    number: u32,
) -> Result<Vec<Option<u32>>, NoMemory>
    requires typed { IsTyped spec.now }
    requires graph { IsGraphOf spec.now graph.now }
    requires as_many { length rounds.now ≡ length spec.now.constraints }
    ensures { IfOk result (λ next. AreNext spec.now rounds.now number next.items) }
{
    let left = left_at(alloc, rounds, number)?;
    let turn = Turn {
        graph,
        left: &left,
        number,
    };
    turn.all_next(alloc, spec, rounds)
}

/// Places constraints in rounds until one places none.
pub fn place_all(alloc: Global, graph: &Graph, spec: &Spec) -> Result<Placed, NoMemory>
    requires typed { IsTyped spec.now }
    requires graph { IsGraphOf spec.now graph.now }
    ensures { IfOk result (λ r. AreSettled spec.now r.rounds.items r.count) }
{
    let mut rounds = vec![in alloc; None; spec.constraints.items().len()]?;
    let mut count = 0;
    loop {
        let next = next_rounds(alloc, graph, spec, &rounds, count)?;
        if unplaced(&next) == unplaced(&rounds) {
            return Ok(Placed { rounds, count });
        }
        rounds = next;
        count += 1;
    }
}
