// Faults of certificates, as text.
ghost use Rattle.std.specs.Prelude.{◌≡◌, ◌≢◌, ◌++◌, IfOk, OnOk};
ghost use Rattle.dsr_cert.specs.declared.faults.CertFault.TheVariants as faults;
ghost use Rattle.dsr_command_certify.specs.Faults as said;
ghost use Rattle.dsr_script.specs.Moves.{shown};

use dsr_answers::{push, push_number};
use dsr_cert::CertFault;
use dsr_command_plan::push_named;
use dsr_ir::{NoMemory, Spec};
use dsr_script::{Told, Verdict};
use std::alloc::Global;

// Appends a word, a constraint's name, and the numbers of a conjunction and a literal, counted from
// 1.
fn push_literal(
    text: &mut Vec<u8>,
    word: &[u8],
    spec: &Spec,
    at: (u32, u32, u32),
) -> Result<(), NoMemory>
    ensures { OnOk result (text.new.items ≡ text.old.items
        ++ said.literal_text word.now spec.now at.0 at.1 at.2) }
{
    push_named(text, word, spec, at.0)?;
    push(text, b" ")?;
    push_number(text, u64::from(at.1) + 1)?;
    push(text, b".")?;
    push_number(text, u64::from(at.2) + 1)
}

// Appends a word with the names of two constraints behind it.
fn push_two(
    text: &mut Vec<u8>,
    word: &[u8],
    spec: &Spec,
    first: u32,
    second: u32,
) -> Result<(), NoMemory>
    ensures { OnOk result (text.new.items ≡ text.old.items
        ++ said.two_text word.now spec.now first second) }
{
    push_named(text, word, spec, first)?;
    push_named(text, b" ", spec, second)
}

// Appends what the fault is; want of memory says nothing of the certificate.
fn push_fault(text: &mut Vec<u8>, spec: &Spec, fault: CertFault) -> Result<(), NoMemory>
    ensures told { OnOk result (text.new.items ≡ text.old.items ++ said.fault_text spec.now fault) }
    ensures known { OnOk result (fault ≢ faults.NoMemory) }
{
    match fault {
        CertFault::Text(line) => {
            push(text, b"1 ")?;
            push_number(text, line)
        }
        CertFault::Coverage(n) => push_named(text, b"2 ", spec, n),
        CertFault::NotATemplate(n, conj, literal) => {
            push_literal(text, b"3 ", spec, (n, conj, literal))
        }
        CertFault::Falsifies(n, conj, literal) => push_literal(
            text,
            b"4 ",
            spec,
            (n, conj, literal),
        ),
        CertFault::Edge(n, other) => push_two(text, b"5 ", spec, n, other),
        CertFault::Reliance(n, on) => push_two(text, b"6 ", spec, n, on),
        CertFault::NoMemory => Err(NoMemory),
    }
}

/// The answer that a certificate has this fault. Want of memory is none.
pub fn fault_told(alloc: Global, spec: &Spec, fault: CertFault) -> Result<Told, NoMemory>
    ensures told { IfOk result (λ told. shown told ≡ said.fault_answer spec.now fault) }
    ensures known { IfOk result (λ _. fault ≢ faults.NoMemory) }
{
    let mut text = Vec::new(alloc);
    push(&mut text, b"cert ")?;
    push_fault(&mut text, spec, fault)?;
    push(&mut text, b"\n")?;
    Ok(Told {
        verdict: Verdict::CertRefused,
        text,
    })
}
