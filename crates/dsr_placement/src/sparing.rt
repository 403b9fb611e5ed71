// Which templates falsify nothing and break no constraint that is left.
ghost use Rattle.std.specs.Prelude.{◌≡◌, ◌≤◌, ◌^◌, Decides, MatchOption, Some, false, length, slice_get, slice_index_or};
ghost use Rattle.dsr_graph.specs.Graphs.{IsOwnerIn, IsWayOf, ways_of};
ghost use Rattle.dsr_ir.specs.declared.constraints.Constraint.{Constraint as ConstraintOf};
ghost use Rattle.dsr_ir.specs.declared.updates.Template.{Template as TemplateOf};
ghost use Rattle.dsr_graph_theory.specs.Owners.{Owner as OwnerOf};
ghost use Rattle.dsr_placement.specs.Placing.{BreaksLeft, HasUsable, IsFirstUsable, IsLeft, IsUsable, IsUsableWay};
ghost use Rattle.dsr_plan_theory.specs.Stuck.{SparesMembers};

use dsr_graph::{Graph, Position, breaks, falsifies, ways};

// How many templates are listed for a literal at most.
const MOST_WAYS: u32 = 64;

/// Whether the constraint with this number is left.
pub fn is_left(left: &[bool], number: u32) -> bool
    ensures { result ≡ slice_index_or left.now number false }
{
    match left.get(number as usize) {
        Some(mark) => *mark,
        None => false,
    }
}

// Whether the constraint is left, and the template breaks it.
fn breaks_left(graph: &Graph, at: Position, way: u32, left: &[bool], other: u32) -> bool
    ensures { (owner : OwnerOf) (template : TemplateOf) (its : ConstraintOf)
        → IsWayOf graph.now at.constraint at.conj at.literal way owner template
        → slice_get owner.spec.constraints other ≡ Some its
        → Decides result (BreaksLeft owner (IsLeft left.now) template other its) }
{
    if !is_left(left, other) {
        return false;
    }
    breaks(graph, at, way, other).is_some()
}

// Whether the template breaks none that is left.
fn spares(graph: &Graph, at: Position, way: u32, left: &[bool]) -> bool
    requires few { length left.now ≤ 2 ^ 32 }
    ensures { (owner : OwnerOf) (template : TemplateOf)
        → IsWayOf graph.now at.constraint at.conj at.literal way owner template
        → length left.now ≡ length owner.spec.constraints
        → Decides result (SparesMembers owner (IsLeft left.now) template) }
{
    for other in 0..left.len() {
        if breaks_left(graph, at, way, left, other as u32) {
            return false;
        }
    }
    true
}

// Whether the template falsifies no other literal, and breaks none that is left.
fn is_usable(graph: &Graph, at: Position, way: u32, left: &[bool]) -> bool
    requires few { length left.now ≤ 2 ^ 32 }
    ensures { (owner : OwnerOf) (template : TemplateOf)
        → IsWayOf graph.now at.constraint at.conj at.literal way owner template
        → length left.now ≡ length owner.spec.constraints
        → Decides result (IsUsable owner (IsLeft left.now) at.conj at.literal template) }
{
    if falsifies(graph, at, way).is_some() {
        return false;
    }
    spares(graph, at, way, left)
}

// Whether the template with this number, counted from 0, is one of so many that are listed, and it
// falsifies nothing and breaks none that is left.
fn is_usable_below(graph: &Graph, at: Position, way: u32, count: usize, left: &[bool]) -> bool
    requires few { length left.now ≤ 2 ^ 32 }
    ensures { (owner : OwnerOf) → IsOwnerIn graph.now at.constraint owner
        → length left.now ≡ length owner.spec.constraints
        → count ≡ length (ways_of graph.now at.constraint at.conj at.literal)
        → Decides result (IsUsableWay graph.now owner (IsLeft left.now) at way) }
{
    if way as usize >= count {
        return false;
    }
    is_usable(graph, at, way, left)
}

/// The number, counted from 0, of the literal's first template that falsifies nothing and breaks no
/// constraint that is left. At most `MOST_WAYS` are listed: each number up to that is asked.
pub fn first_usable(graph: &Graph, at: Position, left: &[bool]) -> Option<u32>
    requires few { length left.now ≤ 2 ^ 32 }
    ensures { (owner : OwnerOf) → IsOwnerIn graph.now at.constraint owner
        → length left.now ≡ length owner.spec.constraints
        → MatchOption result (HasUsable graph.now owner (IsLeft left.now) at → ⊥)
        (IsFirstUsable graph.now owner (IsLeft left.now) at) }
{
    let count = ways(graph, at).len();
    for way in 0..MOST_WAYS {
        if is_usable_below(graph, at, way, count, left) {
            return Some(way);
        }
    }
    None
}
