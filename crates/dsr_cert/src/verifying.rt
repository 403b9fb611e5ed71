// Whether a choice is a plan.
ghost use Rattle.std.specs.Prelude.{◌≡◌, IfErr, IfOk};
ghost use Rattle.dsr_cert.specs.Certificates.{Fits};
ghost use Rattle.dsr_cert.specs.Flaws.{IsFirstFlaw, Tells};
ghost use Rattle.dsr_graph.specs.Graphs.{IsGraphOf};
ghost use Rattle.dsr_meaning.specs.Typed.{IsTyped};
ghost use Rattle.dsr_plan_theory.specs.Plans.{IsPlan};

use crate::faults::CertFault;
use crate::flaws::Chosen;
use dsr_graph::Graph;
use dsr_ir::Spec;
use dsr_plan_theory::{Choice, Plan};
use std::alloc::Global;

/// The plan that a choice is, or its first fault.
pub fn verify<'a>(
    alloc: Global,
    spec: &'a Spec,
    graph: &Graph,
    choice: Choice,
) -> Result<Plan<'a>, CertFault>
    requires typed { IsTyped spec.now }
    requires graph { IsGraphOf spec.now graph.now }
    requires fits { Fits spec.now choice }
    ensures plan { IfOk result (λ plan. plan ≡ (spec.now, choice)) }
    ensures is_plan { IfOk result (λ _. IsPlan spec.now choice) }
    ensures flaw { IfErr result (Tells (IsFirstFlaw spec.now choice)) }
{
    let chosen = Chosen {
        spec,
        graph,
        choice: &choice,
    };
    chosen.check(alloc)?;
    Ok(Plan::adopt(spec, choice))
}
