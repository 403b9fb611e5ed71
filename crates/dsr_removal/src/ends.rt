// Where a stuck set ends: in a member that can't be repaired, or in members that wait for each
// other.
ghost use Rattle.std.specs.Prelude.{◌≡◌, ◌≤◌, ◌^◌, ℕ, All, Decides, IfOk, length};
ghost use Rattle.dsr_graph.specs.Graphs.{IsGraphOf, IsOwnerIn};
ghost use Rattle.dsr_graph_theory.specs.Owners.{Owner as OwnerOf};
ghost use Rattle.dsr_meaning.specs.Typed.{IsTyped};
ghost use Rattle.dsr_placement.specs.Placing.{IsConstraintIn, IsLeft};
ghost use Rattle.dsr_plan_theory.specs.StuckSets.{FindsFirst, IsEnd, IsHopeless};
ghost use Rattle.dsr_removal.specs.Members.{AreMembers};
ghost use Rattle.dsr_removal.specs.Placements.{AreLargest};

use crate::cycles::cycle;
use dsr_graph::Graph;
use dsr_ir::{Constraint, NoMemory, Seq, Spec};
use dsr_placement::{is_left, may_be_first};
use dsr_plan_theory::{StuckEnd, StuckMember};
use std::alloc::Global;

// Whether the constraint is left, and couldn't be repaired even if its templates broke nothing.
fn is_hopeless(
    alloc: Global,
    graph: &Graph,
    number: u32,
    constraint: &Constraint,
    left: &[bool],
    nobody: &[bool],
) -> Result<bool, NoMemory>
    requires few { length nobody.now ≤ 2 ^ 32 }
    requires there { IsConstraintIn graph.now (length nobody.now) number constraint.now }
    requires conjs { length constraint.now.conjs ≤ 16 }
    requires literals { All (λ conj. length conj.literals ≤ 8) constraint.now.conjs }
    requires nobody { (n : ℕ) → IsLeft nobody.now n → ⊥ }
    ensures { IfOk result (λ hopeless. (owner : OwnerOf) → IsOwnerIn graph.now number owner
        → length nobody.now ≡ length owner.spec.constraints → owner.constraint ≡ constraint.now
        → Decides hopeless (IsHopeless owner.spec (IsLeft left.now) number)) }
{
    if !is_left(left, number) {
        return Ok(false);
    }
    Ok(!may_be_first(alloc, graph, number, constraint, nobody)?)
}

// The first constraint that couldn't be repaired even if its templates broke nothing.
fn first_hopeless(
    alloc: Global,
    graph: &Graph,
    spec: &Spec,
    left: &[bool],
) -> Result<Option<u32>, NoMemory>
    requires typed { IsTyped spec.now }
    requires graph { IsGraphOf spec.now graph.now }
    requires as_many { length left.now ≡ length spec.now.constraints }
    ensures { IfOk result (FindsFirst (IsHopeless spec.now (IsLeft left.now))) }
{
    let nobody = vec![in alloc; false; left.len()]?;
    for (number, constraint) in spec.constraints.items().iter().enumerate() {
        if is_hopeless(alloc, graph, number as u32, constraint, left, &nobody)? {
            return Ok(Some(number as u32));
        }
    }
    Ok(None)
}

/// Where the constraints that are left end, which are a stuck set: in the first that couldn't be
/// repaired, and else in those that wait for each other.
pub fn end(
    alloc: Global,
    graph: &Graph,
    spec: &Spec,
    left: &[bool],
    members: &[StuckMember],
) -> Result<StuckEnd, NoMemory>
    requires typed { IsTyped spec.now }
    requires graph { IsGraphOf spec.now graph.now }
    requires largest { AreLargest spec.now left.now }
    requires members { AreMembers spec.now (IsLeft left.now) members.now }
    ensures { IfOk result (IsEnd spec.now (IsLeft left.now) members.now) }
{
    match first_hopeless(alloc, graph, spec, left)? {
        Some(number) => Ok(StuckEnd::Unrepairable(number)),
        None => Ok(StuckEnd::Cycle(Seq::new(cycle(alloc, members)?))),
    }
}
