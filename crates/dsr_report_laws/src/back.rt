// The log of a run that is written as a report, and read again.
ghost use Rattle.std.specs.Prelude.{◌≡◌, ◌<◌, ◌^◌, IfErr, IfOk, length};
ghost use Rattle.dsr_report_laws.specs.Readings.{AreOfRun, AreReadAs};
ghost use Rattle.dsr_report_read.specs.Forms.{IsReported};
ghost use Rattle.dsr_report_read.specs.declared.faults.ReadFault.TheVariants as faults;
ghost use Rattle.dsr_language_laws.specs.Spellings.{HasSpelledNames};

use dsr_ir::Spec;
use dsr_report::{Log, text};
use dsr_report_read::{ReadFault, read};
use std::alloc::Global;

// How many entries there are: few enough for the report to count them.
fn many(log: &Log) -> usize
    ensures { length log.now.entries < 2 ^ 64 }
{
    log.len()
}

/// The log that is read from the report of a run: each of its entries, but for fields that are
/// named alike, of which it has the first. Names have to be spelled as the grammar spells them, as
/// for `read_back` of `dsr_report_read`.
pub fn read_run(alloc: Global, spec: &Spec, log: &Log) -> Result<Log, ReadFault>
    requires spelled { HasSpelledNames spec.now }
    requires run { AreOfRun spec.now log.now.entries }
    ensures back { IfOk result (λ other. AreReadAs spec.now log.now.entries other.entries) }
    ensures reported { IfOk result (λ other. IsReported spec.now other.entries) }
    ensures memory { IfErr result (λ fault. fault ≡ faults.NoMemory) }
{
    let _many = many(log);
    let report = text(alloc, spec, log)?;
    let log = read(alloc, spec, &report)?;
    Ok(log)
}
