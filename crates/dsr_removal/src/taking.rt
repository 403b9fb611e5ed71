// The plan that rounds give: a constraint of a later round has a lower level.
ghost use Rattle.std.specs.Prelude.{◌≡◌, ◌≤◌, ◌<◌, ◌+◌, ◌^◌, ℕ, All, IfOk, MatchOption, None, Some, length, slice_get};
ghost use Rattle.dsr_graph.specs.Graphs.{IsGraphOf, IsOwnerIn};
ghost use Rattle.dsr_graph_theory.specs.Owners.{Owner as OwnerOf};
ghost use Rattle.dsr_meaning.specs.Typed.{IsTyped};
ghost use Rattle.dsr_placement.specs.Placing.{IsConjIn, IsConstraintIn, IsLeft, IsLiteralIn};
ghost use Rattle.dsr_plan_theory.specs.Taken.{IsTakenWay};
ghost use Rattle.dsr_removal.specs.Placements.{IsPlacementFor};
ghost use Rattle.dsr_removal.specs.Rounds.{AreSettled, IsPlacedIn};
ghost use Rattle.dsr_removal.specs.Taking.{AreRowsOf, AreTakenIn, AreTakenWays, IsRowAt};
ghost use Rattle.dsr_update_theory.specs.Templates.{literal_at};

use crate::rounds::{Placed, left_at, place_all, round_at};
use dsr_graph::{Graph, Position, ways};
use dsr_ir::{Conj, Constraint, Literal, NoMemory, Seq, Spec, TryClone};
use dsr_placement::way;
use dsr_plan_theory::{Choice, Row, Way, way_number};
use std::alloc::Global;

// The first template by which the literal can be made true where these are left; a test where there
// is none.
fn literal_way(
    alloc: Global,
    graph: &Graph,
    at: Position,
    literal: &Literal,
    left: &[bool],
) -> Result<Way, NoMemory>
    requires few { length left.now ≤ 2 ^ 32 }
    requires there { IsLiteralIn graph.now (length left.now) at literal.now }
    ensures { IfOk result (λ its. (owner : OwnerOf) → IsOwnerIn graph.now at.constraint owner
        → length left.now ≡ length owner.spec.constraints
        → literal_at owner.constraint at.conj at.literal ≡ Some literal.now
        → IsTakenWay owner (IsLeft left.now) at.conj at.literal literal.now its) }
{
    let Some(number) = way(graph, at, literal, left) else {
        return Ok(Way::Test);
    };
    match ways(graph, at).get(number as usize) {
        Some(template) => {
            let template = TryClone::clone(template, alloc)?;
            Ok(Way::By(way_number(number), template))
        }
        None => Ok(Way::Test),
    }
}

fn conj_ways(
    alloc: Global,
    graph: &Graph,
    constraint: u32,
    number: u32,
    conj: &Conj,
    left: &[bool],
) -> Result<Vec<Way>, NoMemory>
    requires few { length left.now ≤ 2 ^ 32 }
    requires there { IsConjIn graph.now (length left.now) constraint number conj.now }
    requires literals { length conj.now.literals ≤ 8 }
    ensures { IfOk result (λ ways. (owner : OwnerOf) → IsOwnerIn graph.now constraint owner
        → length left.now ≡ length owner.spec.constraints
        → slice_get owner.constraint.conjs number ≡ Some conj.now
        → AreTakenIn owner (IsLeft left.now) number conj.now ways.items) }
{
    let mut ways = Vec::new(alloc);
    for (place, literal) in conj.literals.items().iter().enumerate() {
        let at = Position {
            constraint,
            conj: number,
            literal: place as u32,
        };
        ways.push(literal_way(alloc, graph, at, literal, left)?)?;
    }
    Ok(ways)
}

fn all_ways(
    alloc: Global,
    graph: &Graph,
    number: u32,
    constraint: &Constraint,
    left: &[bool],
) -> Result<Vec<Seq<Way>>, NoMemory>
    requires few { length left.now ≤ 2 ^ 32 }
    requires there { IsConstraintIn graph.now (length left.now) number constraint.now }
    requires conjs { length constraint.now.conjs ≤ 16 }
    requires literals { All (λ conj. length conj.literals ≤ 8) constraint.now.conjs }
    ensures { IfOk result (λ rows. (owner : OwnerOf) → IsOwnerIn graph.now number owner
        → length left.now ≡ length owner.spec.constraints → owner.constraint ≡ constraint.now
        → AreTakenWays owner (IsLeft left.now) rows.items) }
{
    let mut rows = Vec::new(alloc);
    for (place, conj) in constraint.conjs.items().iter().enumerate() {
        let ways = conj_ways(alloc, graph, number, place as u32, conj, left)?;
        rows.push(Seq::new(ways))?;
    }
    Ok(rows)
}

// The row of a constraint that is placed in this round.
fn row(
    alloc: Global,
    graph: &Graph,
    number: u32,
    constraint: &Constraint,
    placed: &Placed,
    round: u32,
) -> Result<Row, NoMemory>
    requires few { length placed.now.rounds.items ≤ 2 ^ 32 }
    requires there { IsConstraintIn graph.now (length placed.now.rounds.items) number constraint.now }
    requires conjs { length constraint.now.conjs ≤ 16 }
    requires literals { All (λ conj. length conj.literals ≤ 8) constraint.now.conjs }
    requires below { round < placed.now.count }
    ensures { IfOk result (λ row. (owner : OwnerOf) → IsOwnerIn graph.now number owner
        → length placed.now.rounds.items ≡ length owner.spec.constraints → owner.constraint ≡ constraint.now
        → IsPlacedIn placed.now.rounds.items round number
        → IsRowAt owner.spec placed.now.rounds.items placed.now.count number owner.constraint row) }
{
    let left = left_at(alloc, &placed.rounds, round)?;
    let ways = all_ways(alloc, graph, number, constraint, &left)?;
    Ok(Row {
        level: placed.count - 1 - round,
        ways: Seq::new(ways),
    })
}

// All rows; none where a constraint has no round.
fn rows(
    alloc: Global,
    graph: &Graph,
    spec: &Spec,
    placed: &Placed,
) -> Result<Option<Vec<Row>>, NoMemory>
    requires typed { IsTyped spec.now }
    requires graph { IsGraphOf spec.now graph.now }
    requires settled { AreSettled spec.now placed.now.rounds.items placed.now.count }
    ensures { IfOk result (λ found. MatchOption found
        ((n : ℕ) × (slice_get placed.now.rounds.items n ≡ Some None))
        (λ rows. AreRowsOf spec.now placed.now.rounds.items placed.now.count rows.items)) }
{
    let mut rows = Vec::new(alloc);
    for (number, constraint) in spec.constraints.items().iter().enumerate() {
        let Some(round) = round_at(&placed.rounds, number) else {
            return Ok(None);
        };
        rows.push(row(alloc, graph, number as u32, constraint, placed, round)?)?;
    }
    Ok(Some(rows))
}

/// What comes of putting all constraints in an order of repair.
#[derive(Drop)]
pub enum Placement {
    /// The plan that is taken.
    Taken(Choice),
    /// For each constraint whether it is a member of the largest stuck set, which isn't empty.
    Stuck(Vec<bool>),
}

/// Puts all constraints in an order of repair, if they have one.
pub fn place(alloc: Global, graph: &Graph, spec: &Spec) -> Result<Placement, NoMemory>
    requires typed { IsTyped spec.now }
    requires graph { IsGraphOf spec.now graph.now }
    ensures { IfOk result (IsPlacementFor spec.now) }
{
    let placed = place_all(alloc, graph, spec)?;
    match rows(alloc, graph, spec, &placed)? {
        Some(rows) => Ok(Placement::Taken(Choice {
            rows: Seq::new(rows),
        })),
        None => Ok(Placement::Stuck(left_at(alloc, &placed.rounds, placed.count)?)),
    }
}
