// A log that is written as a report, and read again.
ghost use Rattle.std.specs.Prelude.{◌≡◌, ◌<◌, ◌^◌, IfErr, IfOk, length};
ghost use Rattle.dsr_meaning.specs.Typed.{IsTyped};
ghost use Rattle.dsr_report_read.specs.Forms.{IsReported};
ghost use Rattle.dsr_report_read.specs.declared.faults.ReadFault.TheVariants as faults;
ghost use Rattle.dsr_language_laws.specs.Spellings.{HasSpelledNames};

use crate::faults::ReadFault;
use crate::reading::read;
use dsr_ir::Spec;
use dsr_report::{Log, text};
use std::alloc::Global;

// How many entries there are: few enough for the report to count them.
fn many(log: &Log) -> usize
    ensures { length log.now.entries < 2 ^ 64 }
{
    log.len()
}

/// The log that is read from the report of this one: the same. Names have to be spelled as the
/// grammar spells them, since one that holds a blank, a bracket or a line feed may end at several
/// places: then two logs may have one report.
pub fn read_back(alloc: Global, spec: &Spec, log: &Log) -> Result<Log, ReadFault>
    requires typed { IsTyped spec.now }
    requires spelled { HasSpelledNames spec.now }
    requires reported { IsReported spec.now log.now.entries }
    ensures back { IfOk result (λ other. other.entries ≡ log.now.entries) }
    ensures memory { IfErr result (λ fault. fault ≡ faults.NoMemory) }
{
    let _many = many(log);
    let report = text(alloc, spec, log)?;
    let log = read(alloc, spec, &report)?;
    Ok(log)
}
