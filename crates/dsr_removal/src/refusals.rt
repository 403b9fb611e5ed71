// The plan that is taken, or why none is.
ghost use Rattle.std.specs.Prelude.{◌≡◌, IfErr, IfOk};
ghost use Rattle.dsr_graph.specs.Graphs.{IsGraphOf};
ghost use Rattle.dsr_meaning.specs.Typed.{IsTyped};
ghost use Rattle.dsr_plan_theory.specs.StuckSets.{IsStuckSet};
ghost use Rattle.dsr_plan_theory.specs.Taken.{IsTaken};
ghost use Rattle.dsr_removal.specs.Refused.{IsRefusal};
ghost use Rattle.dsr_removal.specs.Placements.{AreLargest};

use crate::ends::end;
use crate::members::members;
use crate::taking::{Placement, place};
use dsr_graph::Graph;
use dsr_ir::{NoMemory, Seq, Spec};
use dsr_plan_theory::{Choice, StuckSet};
use std::alloc::Global;

/// Why no choice is taken.
#[derive(Drop)]
pub enum Stuck {
    /// The specification has no plan: the largest set of constraints none of which can be repaired
    /// before the others.
    Set(StuckSet),
    /// The allocator had no memory left.
    NoMemory,
}

impl From<NoMemory> for Stuck {
    ghost use Rattle.dsr_removal.specs.declared.refusals.Stuck.TheVariants as stuck;

    ghost from_gives = { λ _ e. e ≡ stuck.NoMemory };

    fn from(_: NoMemory) -> Self {
        Stuck::NoMemory
    }
}

// The largest stuck set, whose members are left.
fn stuck_set(alloc: Global, graph: &Graph, spec: &Spec, left: &[bool]) -> Result<StuckSet, NoMemory>
    requires typed { IsTyped spec.now }
    requires graph { IsGraphOf spec.now graph.now }
    requires largest { AreLargest spec.now left.now }
    ensures { IfOk result (IsStuckSet spec.now) }
{
    let members = members(alloc, graph, spec, left)?;
    let end = end(alloc, graph, spec, left, &members)?;
    Ok(StuckSet {
        members: Seq::new(members),
        end,
    })
}

/// The plan that is taken, or what stands in the way of one.
pub fn plan(alloc: Global, graph: &Graph, spec: &Spec) -> Result<Choice, Stuck>
    requires typed { IsTyped spec.now }
    requires graph { IsGraphOf spec.now graph.now }
    ensures taken { IfOk result (IsTaken spec.now) }
    ensures refused { IfErr result (IsRefusal spec.now) }
{
    match place(alloc, graph, spec)? {
        Placement::Taken(choice) => Ok(choice),
        Placement::Stuck(left) => Err(Stuck::Set(stuck_set(alloc, graph, spec, &left)?)),
    }
}
