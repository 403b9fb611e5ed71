// Texts with what is wanted of their reading.
ghost use Rattle.dsr_meaning.specs.Typed.{IsTyped};
ghost use Rattle.dsr_report_read.specs.Forms.{IsReported};
ghost use Rattle.dsr_language_laws.specs.Spellings.{HasSpelledNames};

use dsr_ir::{NoMemory, Spec};
use dsr_language_laws::names_are_spelled;
use dsr_report::{Log, text};
use dsr_report_read::{ReadFault, read, read_back};
use dsr_spec::specification;
use std::alloc::Global;
use std::test::Fail;

const SPEC: &[u8] = b"version 1; order little;
structure Head { u8 flags[4]; }
structure Rec { u8 value; u8 next -> recs; }
pool recs : Rec[2] at 4 codes 1 step 1 none 0;
set All of recs;
relation Next : recs -> recs;
rule head, k in pool recs => recs[k] in All;
rule x in All => <x, x.next> in Next;
constraint filled : size(All) >= 1;
constraint single : forall <x, y> in Next : size(Next.y) <= 1;
";

const REPORT: &[u8] = b"update 1 filled - 1.1 2
  reset recs[1]
  set recs[1].value 7 255
  set head.flags[3] 18446744073709551615 0
  byte 10 0a ff
  byte 11 00 9c
update 2 single <recs[0],recs[4294967295]> 1.1 1
updates 2
";

// Each with the first line that isn't of the form; 0 where it is a report.
const TEXTS: [(&[u8], u64); 17] = [
    (REPORT, 0),
    (b"updates 0\n", 0),
    (b"", 1),
    (b"updates 0", 1),
    (b"updates 1\n", 1),
    (b"updates 0\n\n", 2),
    (b"update 1 filled - 1.1 2\n", 2),
    (
        b"update 1 filled - 1.1 2\n  set recs[1].value 5 2\n  byte 10 05 02\nupdates 1\n",
        0,
    ),
    (b"update 1 filled - 1.1 2\n  byte 10 05 02\nupdates 1\n", 0),
    (
        b"update 1 filled - 1.1 2\n  set recs[1].value 5 2\n  byte 10 05 02\nupdates 2\n",
        4,
    ),
    (b"update 1 filled - 1.1 3\nupdates 1\n", 1),
    (b"update 1 filled - 1.2 1\nupdates 1\n", 1),
    (b"update 1 filled - 1.1 1\n  byte 1 0A 01\nupdates 1\n", 2),
    (
        b"update 1 filled - 1.1 1\n  set head.flags 0 1\nupdates 1\n",
        2,
    ),
    (
        b"update 1 filled - 1.1 1\n  set recs[0].value 00 1\nupdates 1\n",
        2,
    ),
    (
        b"update 1 filled - 1.1 1\n  byte 1 00 01\n  reset recs[0]\nupdates 1\n",
        3,
    ),
    (b"update 1 filled - 1.1 1\r\nupdates 1\n", 1),
];

// Whether this is the report of the log that is read back from the log's own.
fn is_read_back(alloc: Global, spec: &Spec, log: &Log, report: &[u8]) -> Result<bool, NoMemory>
    requires typed { IsTyped spec.now }
    requires spelled { HasSpelledNames spec.now }
    requires reported { IsReported spec.now log.now.entries }
{
    match read_back(alloc, spec, log) {
        Ok(back) => Ok(text(alloc, spec, &back)?.as_slice() == report),
        Err(_) => Err(NoMemory),
    }
}

// Whether the text has this as its first wrong line, or is printed back.
fn is_read_so(alloc: Global, spec: &Spec, report: &[u8], wanted: u64) -> Result<bool, NoMemory>
    requires typed { IsTyped spec.now }
    requires spelled { HasSpelledNames spec.now }
{
    match read(alloc, spec, report) {
        Ok(log) => Ok(wanted == 0 && is_read_back(alloc, spec, &log, report)?),
        Err(ReadFault::Line(line)) => Ok(wanted == line),
        Err(ReadFault::NoMemory) => Err(NoMemory),
    }
}

// The place of the first text that is read otherwise.
fn first_wrong(alloc: Global, spec: &Spec) -> Result<Option<usize>, NoMemory>
    requires typed { IsTyped spec.now }
    requires spelled { HasSpelledNames spec.now }
{
    for (place, (report, wanted)) in TEXTS.iter().enumerate() {
        if !is_read_so(alloc, spec, report, *wanted)? {
            return Ok(Some(place));
        }
    }
    Ok(None)
}

// One function has all that is dropped, so that no test has a specification alive.
fn first_told(alloc: Global) -> Result<Option<usize>, NoMemory> {
    names_are_spelled();
    match specification(alloc, SPEC)? {
        Some(spec) => first_wrong(alloc, &spec),
        None => Ok(Some(TEXTS.len())),
    }
}

#[test]
fn reports_are_read(rt: HostRuntime) -> Result<(), Fail> {
    assert_eq!(rt; first_told(rt.alloc())?, None);
    Ok(())
}
