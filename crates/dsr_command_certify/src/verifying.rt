// Whether a certificate is one of a plan.
ghost use Rattle.std.specs.Prelude.{IfOk};
ghost use Rattle.dsr_cert.specs.Certificates.{Fits};
ghost use Rattle.dsr_command_certify.specs.Verified.{IsVerifyAnswer};
ghost use Rattle.dsr_graph.specs.Graphs.{IsGraphOf};
ghost use Rattle.dsr_meaning.specs.Typed.{IsTyped};
ghost use Rattle.dsr_script.specs.Moves.{shown};

use crate::faults::fault_told;
use dsr_answers::told;
use dsr_cert::read_cert;
use dsr_graph::graph;
use dsr_ir::{NoMemory, Spec};
use dsr_script::{Told, Verdict};
use std::alloc::Global;

/// The answer about the text of a certificate.
pub fn verify(alloc: Global, spec: &Spec, text: &[u8]) -> Result<Told, NoMemory>
    requires { IsTyped spec.now }
    ensures { IfOk result (λ told. IsVerifyAnswer spec.now text.now (shown told)) }
{
    let graph = graph(alloc, spec)?;
    let choice = match read_cert(alloc, spec, &graph, text) {
        Ok(choice) => choice,
        Err(fault) => return fault_told(alloc, spec, fault),
    };
    match dsr_cert::verify(alloc, spec, &graph, choice) {
        Ok(_) => told(alloc, Verdict::Ok, b"valid\n"),
        Err(fault) => fault_told(alloc, spec, fault),
    }
}
