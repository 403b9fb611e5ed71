// Whether a specification has a plan.
ghost use Rattle.std.specs.Prelude.{IfOk};
ghost use Rattle.dsr_meaning.specs.Typed.{IsTyped};
ghost use Rattle.dsr_command_plan.specs.Planned.{IsFound, IsPlanAnswer};
ghost use Rattle.dsr_script.specs.Moves.{shown};

use crate::levels::accepted;
use crate::stuck::refused;
use dsr_graph::graph;
use dsr_ir::{NoMemory, Spec};
use dsr_plan_theory::{Choice, StuckSet};
use dsr_removal::Stuck;
use dsr_script::Told;
use std::alloc::Global;

/// What is found where a plan is looked for.
#[derive(Drop)]
pub enum Found {
    /// The plan that is taken.
    Plan(Choice),
    /// What stands in the way of one.
    Stuck(StuckSet),
}

/// Looks for a plan.
pub fn find(alloc: Global, spec: &Spec) -> Result<Found, NoMemory>
    requires { IsTyped spec.now }
    ensures { IfOk result (IsFound spec.now) }
{
    let graph = graph(alloc, spec)?;
    match dsr_removal::plan(alloc, &graph, spec) {
        Ok(choice) => Ok(Found::Plan(choice)),
        Err(Stuck::Set(set)) => Ok(Found::Stuck(set)),
        Err(Stuck::NoMemory) => Err(NoMemory),
    }
}

/// The answer whether a specification has a plan.
pub fn plan(alloc: Global, spec: &Spec) -> Result<Told, NoMemory>
    requires { IsTyped spec.now }
    ensures { IfOk result (λ told. IsPlanAnswer spec.now (shown told)) }
{
    match find(alloc, spec)? {
        Found::Plan(choice) => accepted(alloc, spec, &choice),
        Found::Stuck(set) => refused(alloc, spec, &set),
    }
}
