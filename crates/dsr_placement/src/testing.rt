// Which literals have to be tested where these constraints are left.
ghost use Rattle.std.specs.Prelude.{◌≡◌, ◌≤◌, ◌^◌, All, IfOk, MatchOption, Some, length, slice_get};
ghost use Rattle.dsr_graph.specs.Graphs.{IsOwnerIn};
ghost use Rattle.dsr_graph_theory.specs.Owners.{Owner as OwnerOf};
ghost use Rattle.dsr_placement.specs.Placing.{AreTests, AreTestsIn, IsConjIn, IsConstraintIn, IsLeft, IsLiteralIn, IsWayAt};
ghost use Rattle.dsr_plan_theory.specs.Stuck.{MustTest};
ghost use Rattle.dsr_update_theory.specs.Templates.{literal_at};

use crate::sparing::first_usable;
use dsr_graph::{Graph, Position};
use dsr_ir::{Conj, Constraint, Literal, NoMemory, Seq};
use std::alloc::Global;

/// The number, counted from 0, of the template by which the literal can be made true without
/// breaking any constraint that is left; none where the literal has to be tested.
pub fn way(graph: &Graph, at: Position, literal: &Literal, left: &[bool]) -> Option<u32>
    requires few { length left.now ≤ 2 ^ 32 }
    requires there { IsLiteralIn graph.now (length left.now) at literal.now }
    ensures { (owner : OwnerOf) → IsOwnerIn graph.now at.constraint owner
        → length left.now ≡ length owner.spec.constraints
        → literal_at owner.constraint at.conj at.literal ≡ Some literal.now
        → MatchOption result (MustTest owner (IsLeft left.now) at.conj at.literal)
        (IsWayAt graph.now owner (IsLeft left.now) at literal.now) }
{
    if literal.given {
        return None;
    }
    first_usable(graph, at, left)
}

// Whether each literal of a conjunction has to be tested.
fn conj_tests(
    alloc: Global,
    graph: &Graph,
    constraint: u32,
    number: u32,
    conj: &Conj,
    left: &[bool],
) -> Result<Vec<bool>, NoMemory>
    requires few { length left.now ≤ 2 ^ 32 }
    requires there { IsConjIn graph.now (length left.now) constraint number conj.now }
    requires literals { length conj.now.literals ≤ 8 }
    ensures { IfOk result (λ marks. (owner : OwnerOf) → IsOwnerIn graph.now constraint owner
        → length left.now ≡ length owner.spec.constraints
        → slice_get owner.constraint.conjs number ≡ Some conj.now
        → AreTestsIn owner (IsLeft left.now) number conj.now marks.items) }
{
    let mut marks = Vec::new(alloc);
    for (place, literal) in conj.literals.items().iter().enumerate() {
        let at = Position {
            constraint,
            conj: number,
            literal: place as u32,
        };
        marks.push(way(graph, at, literal, left).is_none())?;
    }
    Ok(marks)
}

/// Whether each literal of each conjunction has to be tested.
pub fn tests(
    alloc: Global,
    graph: &Graph,
    number: u32,
    constraint: &Constraint,
    left: &[bool],
) -> Result<Vec<Seq<bool>>, NoMemory>
    requires few { length left.now ≤ 2 ^ 32 }
    requires there { IsConstraintIn graph.now (length left.now) number constraint.now }
    requires conjs { length constraint.now.conjs ≤ 16 }
    requires literals { All (λ conj. length conj.literals ≤ 8) constraint.now.conjs }
    ensures { IfOk result (λ rows. (owner : OwnerOf) → IsOwnerIn graph.now number owner
        → length left.now ≡ length owner.spec.constraints → owner.constraint ≡ constraint.now
        → AreTests owner (IsLeft left.now) rows.items) }
{
    let mut rows = Vec::new(alloc);
    for (place, conj) in constraint.conjs.items().iter().enumerate() {
        let marks = conj_tests(alloc, graph, number, place as u32, conj, left)?;
        rows.push(Seq::new(marks))?;
    }
    Ok(rows)
}
