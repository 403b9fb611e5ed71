// Whether a constraint may be repaired before those that are left.
ghost use Rattle.std.specs.Prelude.{◌≡◌, ◌≤◌, ◌^◌, All, Decides, IfOk, MatchBool, length};
ghost use Rattle.dsr_graph.specs.Graphs.{IsOwnerIn};
ghost use Rattle.dsr_graph_theory.specs.Owners.{Owner as OwnerOf};
ghost use Rattle.dsr_placement.specs.Placing.{IsConstraintIn, IsLeft, ReliesLeft, IsReliedOn, IsReliedOnByNone, TellsRelies};
ghost use Rattle.dsr_plan_theory.specs.Stuck.{IsHeld, MayBeFirst};

use crate::covering::covers;
use crate::sparing::is_left;
use crate::testing::tests;
use dsr_graph::{Graph, relies};
use dsr_ir::{Constraint, NoMemory};
use std::alloc::Global;

/// Whether the constraint is left, and relies on the other one.
pub fn relies_left(graph: &Graph, who: u32, on: u32, left: &[bool]) -> bool
    ensures told { Decides result (TellsRelies graph.now left.now who on) }
    ensures relies { (owner : OwnerOf) → IsOwnerIn graph.now who owner
        → Decides result (ReliesLeft owner.spec (IsLeft left.now) who on) }
{
    if !is_left(left, who) {
        return false;
    }
    relies(graph, who, on)
}

// Whether one that is left relies on the constraint.
fn is_relied_on(graph: &Graph, on: u32, left: &[bool]) -> bool
    requires few { length left.now ≤ 2 ^ 32 }
    ensures { (owner : OwnerOf) → IsOwnerIn graph.now on owner
        → length left.now ≡ length owner.spec.constraints
        → MatchBool result (IsReliedOn owner.spec (IsLeft left.now) on)
        (IsReliedOnByNone owner.spec (IsLeft left.now) on) }
{
    for who in 0..left.len() {
        if relies_left(graph, who as u32, on, left) {
            return true;
        }
    }
    false
}

/// Whether the constraint may be repaired before those that are left: none of them relies on it,
/// and its tests cover it where each literal that can be made true without breaking one of them
/// isn't tested.
pub fn may_be_first(
    alloc: Global,
    graph: &Graph,
    number: u32,
    constraint: &Constraint,
    left: &[bool],
) -> Result<bool, NoMemory>
    requires few { length left.now ≤ 2 ^ 32 }
    requires there { IsConstraintIn graph.now (length left.now) number constraint.now }
    requires conjs { length constraint.now.conjs ≤ 16 }
    requires literals { All (λ conj. length conj.literals ≤ 8) constraint.now.conjs }
    ensures { IfOk result (λ first. (owner : OwnerOf) → IsOwnerIn graph.now number owner
        → length left.now ≡ length owner.spec.constraints → owner.constraint ≡ constraint.now
        → MatchBool first (MayBeFirst owner.spec (IsLeft left.now) number owner.constraint)
        (IsHeld owner.spec (IsLeft left.now) number owner.constraint)) }
{
    if is_relied_on(graph, number, left) {
        return Ok(false);
    }
    let tests = tests(alloc, graph, number, constraint, left)?;
    covers(alloc, constraint, &tests)
}
