// Lines that tell a reset or a byte.
ghost use Rattle.std.specs.Prelude.{◌≡◌, Decides, IfOk};
ghost use Rattle.dsr_meaning.specs.Typed.{AreTyped};
ghost use Rattle.dsr_report.specs.Reports.{byte_line, reset_line};
ghost use Rattle.dsr_report_read.specs.Forms.{IsChange, IsRecord};
ghost use Rattle.dsr_report_read.specs.Lenient as said;
ghost use Rattle.dsr_report_read.specs.Reads.{IsPoolRecord, IsRecordIn, Reads};

use crate::bindings::element;
use crate::numbers::{byte_ahead, is_ahead, number_ahead, skip};
use crate::printed::{is_change, is_reset};
use dsr_answers::pool_name;
use dsr_ir::{Element, NoMemory, Spec};
use dsr_repair_theory::ByteChange;

/// Whether the element is the head, or a slot of a declared pool.
pub fn is_record(spec: &Spec, elem: Element) -> bool
    ensures { Decides result (IsRecord spec.now elem) }
{
    if spec.base.pools.items().len() < elem.pool as usize {
        return false;
    }
    elem.pool != 0 || elem.slot == 0
}

// The byte that the line may tell.
fn change_in(text: &[u8]) -> ByteChange
    ensures { result ≡ said.change_in text.now }
{
    let (place, rest) = number_ahead(skip(text, 7));
    ByteChange {
        place,
        old: byte_ahead(skip(rest, 1)),
        new: byte_ahead(skip(rest, 4)),
    }
}

pub fn read_change(printed: &mut Vec<u8>, text: &[u8]) -> Result<Option<ByteChange>, NoMemory>
    ensures { IfOk result (Reads IsChange byte_line text.now) }
{
    let change = change_in(text);
    if !is_change(printed, &change, text)? {
        return Ok(None);
    }
    Ok(Some(change))
}

// The record of this pool that the line tells.
fn read_reset_in(
    printed: &mut Vec<u8>,
    spec: &Spec,
    pool: u32,
    text: &[u8],
) -> Result<Option<Element>, NoMemory>
    ensures { IfOk result (Reads (IsRecordIn spec.now pool) (reset_line spec.now) text.now) }
{
    if pool == 0 {
        return Ok(None);
    }
    if !is_ahead(pool_name(spec, pool), skip(text, 8)) {
        return Ok(None);
    }
    let (elem, _) = element(spec, pool, skip(text, 8));
    if !is_record(spec, elem) {
        return Ok(None);
    }
    if !is_reset(printed, spec, elem, text)? {
        return Ok(None);
    }
    Ok(Some(elem))
}

pub fn read_reset(
    printed: &mut Vec<u8>,
    spec: &Spec,
    text: &[u8],
) -> Result<Option<Element>, NoMemory>
    requires typed { AreTyped spec.now.base }
    ensures { IfOk result (Reads (IsPoolRecord spec.now) (reset_line spec.now) text.now) }
{
    let count = spec.base.pools.items().len() as u32;
    for pool in 0..count + 1 {
        let found = read_reset_in(printed, spec, pool, text)?;
        if found.is_some() {
            return Ok(found);
        }
    }
    Ok(None)
}
