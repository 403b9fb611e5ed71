// The members of a stuck set, each with what may keep it from being repaired before the others.
ghost use Rattle.std.specs.Prelude.{◌≡◌, ◌≤◌, ◌+◌, ◌^◌, All, IfOk, OnOk, length};
ghost use Rattle.dsr_graph.specs.Graphs.{IsGraphOf, IsOwnerIn};
ghost use Rattle.dsr_graph_theory.specs.Owners.{Owner as OwnerOf};
ghost use Rattle.dsr_meaning.specs.Typed.{IsTyped};
ghost use Rattle.dsr_placement.specs.Placing.{IsLeft};
ghost use Rattle.dsr_plan_theory.specs.StuckSets.{FindsFirst, MemberRelies};
ghost use Rattle.dsr_removal.specs.Members.{AreMembers, AreMembersBelow, IsMemberAt};

use crate::ways::stuck_ways;
use dsr_graph::Graph;
use dsr_ir::{Constraint, NoMemory, Seq, Spec};
use dsr_placement::{is_left, relies_left};
use dsr_plan_theory::StuckMember;
use std::alloc::Global;

// The first constraint that is left and that relies on this one.
fn relied_by(graph: &Graph, on: u32, left: &[bool]) -> Option<u32>
    requires few { length left.now ≤ 2 ^ 32 }
    ensures { (owner : OwnerOf) → IsOwnerIn graph.now on owner
        → length left.now ≡ length owner.spec.constraints
        → FindsFirst (MemberRelies owner.spec (IsLeft left.now) on) result }
{
    for who in 0..left.len() {
        if relies_left(graph, who as u32, on, left) {
            return Some(who as u32);
        }
    }
    None
}

// What may keep the constraint from being repaired before those that are left.
fn member(
    alloc: Global,
    graph: &Graph,
    number: u32,
    constraint: &Constraint,
    left: &[bool],
) -> Result<StuckMember, NoMemory>
    requires few { length left.now ≤ 2 ^ 32 }
    requires conjs { length constraint.now.conjs ≤ 16 }
    requires literals { All (λ conj. length conj.literals ≤ 8) constraint.now.conjs }
    ensures { IfOk result (λ member. (owner : OwnerOf) → IsOwnerIn graph.now number owner
        → length left.now ≡ length owner.spec.constraints → owner.constraint ≡ constraint.now
        → IsMemberAt owner.spec (IsLeft left.now) number member) }
{
    let ways = stuck_ways(alloc, graph, number, constraint, left)?;
    Ok(StuckMember {
        constraint: number,
        relied_by: relied_by(graph, number, left),
        ways: Seq::new(ways),
    })
}

// Puts the constraint behind the members, where it is left.
fn add_member(
    alloc: Global,
    graph: &Graph,
    number: u32,
    constraint: &Constraint,
    left: &[bool],
    members: &mut Vec<StuckMember>,
) -> Result<(), NoMemory>
    requires few { length left.now ≤ 2 ^ 32 }
    requires conjs { length constraint.now.conjs ≤ 16 }
    requires literals { All (λ conj. length conj.literals ≤ 8) constraint.now.conjs }
    ensures { OnOk result ((owner : OwnerOf) → IsOwnerIn graph.now number owner
        → length left.now ≡ length owner.spec.constraints → owner.constraint ≡ constraint.now
        → AreMembersBelow owner.spec (IsLeft left.now) number members.old.items
        → AreMembersBelow owner.spec (IsLeft left.now) (number + 1) members.new.items) }
{
    if !is_left(left, number) {
        return Ok(());
    }
    members.push(member(alloc, graph, number, constraint, left)?)?;
    Ok(())
}

/// The constraints that are left, in order of declaration, each with what may keep it from being
/// repaired before all others.
pub fn members(
    alloc: Global,
    graph: &Graph,
    spec: &Spec,
    left: &[bool],
) -> Result<Vec<StuckMember>, NoMemory>
    requires typed { IsTyped spec.now }
    requires graph { IsGraphOf spec.now graph.now }
    requires as_many { length left.now ≡ length spec.now.constraints }
    ensures { IfOk result (λ members. AreMembers spec.now (IsLeft left.now) members.items) }
{
    let mut members = Vec::new(alloc);
    for (number, constraint) in spec.constraints.items().iter().enumerate() {
        add_member(alloc, graph, number as u32, constraint, left, &mut members)?;
    }
    Ok(members)
}
