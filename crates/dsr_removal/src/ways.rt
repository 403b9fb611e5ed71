// Which templates of a member of a stuck set break members. Templates are numbered from 0 here, but
// in a way that is told from 1.
ghost use Rattle.std.specs.Prelude.{◌≡◌, ◌≤◌, ◌<◌, ◌+◌, ◌^◌, All, IfOk, MatchOption, OnOk, Some, length, slice_get};
ghost use Rattle.dsr_graph_theory.specs.Breaks.{Breaks};
ghost use Rattle.dsr_graph.specs.Graphs.{IsOwnerIn, IsWayOf, owner_at, ways_of};
ghost use Rattle.dsr_ir.specs.declared.constraints.Constraint.{Constraint as ConstraintOf};
ghost use Rattle.dsr_ir.specs.declared.updates.Template.{Template as TemplateOf};
ghost use Rattle.dsr_graph_theory.specs.Owners.{Owner as OwnerOf};
ghost use Rattle.dsr_placement.specs.Placing.{BreaksLeft, IsLeft};
ghost use Rattle.dsr_plan_theory.specs.StuckSets.{AreStuckWays};
ghost use Rattle.dsr_plan_theory.specs.Stuck.{SparesMembers};
ghost use Rattle.dsr_removal.specs.Ways.{AreWaysBefore, IsFirstBroken, IsNoWay, IsReasonLeft, IsWayAt};

use dsr_graph::{Graph, Position, breaks, falsifies, ways};
use dsr_graph_theory::Reason;
use dsr_ir::{Conj, Constraint, NoMemory};
use dsr_placement::is_left;
use dsr_plan_theory::{StuckWay, way_number};
use std::alloc::Global;

// How many templates are listed for a literal at most.
const MOST_WAYS: usize = 64;

// How many templates are listed for the literal.
fn way_count(graph: &Graph, at: Position) -> u32
    ensures few { result ≤ 64 }
    ensures all { (owner : OwnerOf) → IsOwnerIn graph.now at.constraint owner
        → result ≡ length (ways_of graph.now at.constraint at.conj at.literal) }
{
    let listed = ways(graph, at).len();
    listed.min(MOST_WAYS) as u32
}

// Why the template breaks the constraint, where that one is left.
fn reason_left(
    graph: &Graph,
    at: Position,
    number: u32,
    left: &[bool],
    other: u32,
) -> Option<Reason>
    ensures { (owner : OwnerOf) (template : TemplateOf) (its : ConstraintOf)
        → IsWayOf graph.now at.constraint at.conj at.literal number owner template
        → slice_get owner.spec.constraints other ≡ Some its
        → MatchOption result (BreaksLeft owner (IsLeft left.now) template other its → ⊥)
        (IsReasonLeft owner (IsLeft left.now) template other its) }
{
    if !is_left(left, other) {
        return None;
    }
    breaks(graph, at, number, other)
}

// The first constraint that is left and that the template breaks, and why.
fn first_broken(graph: &Graph, at: Position, number: u32, left: &[bool]) -> Option<(u32, Reason)>
    requires few { length left.now ≤ 2 ^ 32 }
    ensures { (owner : OwnerOf) (template : TemplateOf)
        → IsWayOf graph.now at.constraint at.conj at.literal number owner template
        → length left.now ≡ length owner.spec.constraints
        → MatchOption result (SparesMembers owner (IsLeft left.now) template)
        (λ found. IsFirstBroken owner (IsLeft left.now) template found.0 found.1) }
{
    for other in 0..left.len() {
        if let Some(reason) = reason_left(graph, at, number, left, other as u32) {
            return Some((other as u32, reason));
        }
    }
    None
}

// The way of the template with this number, where it falsifies nothing and breaks a constraint that
// is left.
fn stuck_way(graph: &Graph, at: Position, number: u32, left: &[bool]) -> Option<StuckWay>
    requires below { number < 64 }
    requires few { length left.now ≤ 2 ^ 32 }
    ensures { (owner : OwnerOf) (template : TemplateOf)
        → IsWayOf graph.now at.constraint at.conj at.literal number owner template
        → length left.now ≡ length owner.spec.constraints
        → MatchOption result (IsNoWay owner (IsLeft left.now) at.conj at.literal (number + 1))
        (IsWayAt owner (IsLeft left.now) at.conj at.literal (number + 1)) }
{
    if falsifies(graph, at, number).is_some() {
        return None;
    }
    let Some((breaks, reason)) = first_broken(graph, at, number, left) else {
        return None;
    };
    Some(StuckWay {
        conj: at.conj,
        literal: at.literal,
        way: way_number(number),
        breaks,
        reason,
    })
}

// Puts the way of the template with this number behind the others, where it is stuck.
fn add_way(
    graph: &Graph,
    at: Position,
    number: u32,
    left: &[bool],
    ways: &mut Vec<StuckWay>,
) -> Result<(), NoMemory>
    requires below { number < 64 }
    requires few { length left.now ≤ 2 ^ 32 }
    ensures { OnOk result ((owner : OwnerOf) (template : TemplateOf)
        → IsWayOf graph.now at.constraint at.conj at.literal number owner template
        → length left.now ≡ length owner.spec.constraints
        → AreWaysBefore owner (IsLeft left.now) at.conj at.literal number ways.old.items
        → AreWaysBefore owner (IsLeft left.now) at.conj at.literal (number + 1) ways.new.items) }
{
    let Some(way) = stuck_way(graph, at, number, left) else {
        return Ok(());
    };
    ways.push(way)?;
    Ok(())
}

// Puts the ways of a literal behind the others.
fn add_literal_ways(
    graph: &Graph,
    at: Position,
    left: &[bool],
    ways: &mut Vec<StuckWay>,
) -> Result<(), NoMemory>
    requires few { length left.now ≤ 2 ^ 32 }
    ensures { OnOk result ((owner : OwnerOf) → IsOwnerIn graph.now at.constraint owner
        → length left.now ≡ length owner.spec.constraints
        → AreWaysBefore owner (IsLeft left.now) at.conj at.literal 0 ways.old.items
        → AreWaysBefore owner (IsLeft left.now) at.conj (at.literal + 1) 0 ways.new.items) }
{
    for number in 0..way_count(graph, at) {
        add_way(graph, at, number, left, ways)?;
    }
    Ok(())
}

// Puts the ways of a conjunction behind the others.
fn add_conj_ways(
    graph: &Graph,
    constraint: u32,
    number: u32,
    conj: &Conj,
    left: &[bool],
    ways: &mut Vec<StuckWay>,
) -> Result<(), NoMemory>
    requires few { length left.now ≤ 2 ^ 32 }
    requires literals { length conj.now.literals ≤ 8 }
    ensures { OnOk result ((owner : OwnerOf) → IsOwnerIn graph.now constraint owner
        → length left.now ≡ length owner.spec.constraints
        → slice_get owner.constraint.conjs number ≡ Some conj.now
        → AreWaysBefore owner (IsLeft left.now) number 0 0 ways.old.items
        → AreWaysBefore owner (IsLeft left.now) (number + 1) 0 0 ways.new.items) }
{
    for literal in 0..conj.literals.items().len() {
        let at = Position {
            constraint,
            conj: number,
            literal: literal as u32,
        };
        add_literal_ways(graph, at, left, ways)?;
    }
    Ok(())
}

/// The ways of all templates of the constraint that falsify nothing and break constraints that are
/// left.
pub fn stuck_ways(
    alloc: Global,
    graph: &Graph,
    number: u32,
    constraint: &Constraint,
    left: &[bool],
) -> Result<Vec<StuckWay>, NoMemory>
    requires few { length left.now ≤ 2 ^ 32 }
    requires conjs { length constraint.now.conjs ≤ 16 }
    requires literals { All (λ conj. length conj.literals ≤ 8) constraint.now.conjs }
    ensures { IfOk result (λ ways. (owner : OwnerOf) → IsOwnerIn graph.now number owner
        → length left.now ≡ length owner.spec.constraints → owner.constraint ≡ constraint.now
        → AreStuckWays owner (IsLeft left.now) ways.items) }
{
    let mut ways = Vec::new(alloc);
    for (place, conj) in constraint.conjs.items().iter().enumerate() {
        add_conj_ways(graph, number, place as u32, conj, left, &mut ways)?;
    }
    Ok(ways)
}
