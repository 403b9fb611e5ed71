// The certificate of the plan that is taken.
ghost use Rattle.std.specs.Prelude.{◌≡◌, IfOk};
ghost use Rattle.dsr_command_certify.specs.Certified as said;
ghost use Rattle.dsr_command_certify.specs.Certified.{IsCertified};
ghost use Rattle.dsr_meaning.specs.Typed.{IsTyped};
ghost use Rattle.dsr_script.specs.Moves.{shown};

use dsr_answers::{push, push_number};
use dsr_cert::write_cert;
use dsr_command_plan::{Found, find, level_count, refused};
use dsr_ir::{NoMemory, Spec};
use dsr_plan_theory::Choice;
use dsr_script::{Told, Verdict};
use std::alloc::Global;

/// What comes of certifying a specification.
#[derive(Drop)]
pub enum Certified {
    /// The certificate that is to be saved, and what is told then.
    Certificate(Vec<u8>, Told),
    /// The answer that there is no plan.
    Unplanned(Told),
}

// The answer that a plan of so many levels was certified.
fn certified_answer(alloc: Global, choice: &Choice) -> Result<Told, NoMemory>
    ensures { IfOk result (λ told. shown told ≡ said.certified_answer choice.now) }
{
    let mut text = Vec::new(alloc);
    push(&mut text, b"certified ")?;
    push_number(&mut text, level_count(choice))?;
    push(&mut text, b"\n")?;
    Ok(Told {
        verdict: Verdict::Ok,
        text,
    })
}

/// Certifies the plan that is taken.
pub fn certify(alloc: Global, spec: &Spec) -> Result<Certified, NoMemory>
    requires { IsTyped spec.now }
    ensures { IfOk result (IsCertified spec.now) }
{
    match find(alloc, spec)? {
        Found::Plan(choice) => {
            let told = certified_answer(alloc, &choice)?;
            Ok(Certified::Certificate(write_cert(alloc, spec, &choice)?, told))
        }
        Found::Stuck(set) => Ok(Certified::Unplanned(refused(alloc, spec, &set)?)),
    }
}
