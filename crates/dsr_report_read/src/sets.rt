// Lines that tell a value that was set.
ghost use Rattle.std.specs.Prelude.{◌≡◌, ◌<◌, ◌+◌, ◌^◌, Decides, IfOk, Some, length, slice_get};
ghost use Rattle.dsr_meaning.specs.Instances.{declared_field};
ghost use Rattle.dsr_meaning.specs.Typed.{AreTyped};
ghost use Rattle.dsr_report.specs.Reports.{set_line};
ghost use Rattle.dsr_report_read.specs.Forms.{IsFirstSet, IsOfPool};
ghost use Rattle.dsr_report_read.specs.Lenient as said;
ghost use Rattle.dsr_report_read.specs.Reads.{IsFirstSetIn, IsSetAt, IsSetUnder, Reads};

use crate::bindings::element;
use crate::fields::{has_name, is_of_pool};
use crate::numbers::{is_ahead, number_ahead, skip};
use crate::printed::is_set;
use crate::records::is_record;
use dsr_answers::{field_name, pool_name};
use dsr_ir::{Field, FieldRef, NoMemory, Path, Spec, Structure};
use dsr_repair_theory::CellSet;

// The index of an array's entry at the front, and what stands behind it.
fn index(indexed: bool, text: &[u8]) -> (u64, &[u8])
    ensures index { result.0 ≡ said.index_ahead indexed text.now }
    ensures rest { result.1.now ≡ said.behind_index indexed text.now }
{
    if !indexed {
        return (0, text);
    }
    let (index, rest) = number_ahead(skip(text, 1));
    (index, skip(rest, 1))
}

// Where the field's name begins.
fn field_ahead<'a>(spec: &Spec, pool: u32, text: &'a [u8]) -> &'a [u8]
    ensures { result.now ≡ said.field_ahead spec.now pool text.now }
{
    let (_, rest) = element(spec, pool, skip(text, 6));
    skip(rest, 1)
}

// What the line may tell of this field.
fn set_in(spec: &Spec, pool: u32, path: Path, text: &[u8]) -> CellSet
    ensures { result ≡ said.set_in spec.now pool path text.now }
{
    let (elem, _) = element(spec, pool, skip(text, 6));
    let name = field_name(spec, path.field.structure, path.field.field);
    let rest = skip(field_ahead(spec, pool, text), name.len());
    let (index, rest) = index(path.indexed, rest);
    let (old, rest) = number_ahead(skip(rest, 1));
    let (new, _) = number_ahead(skip(rest, 1));
    CellSet {
        elem,
        path,
        index,
        old,
        new,
    }
}

// What the line tells of this field.
fn read_set_at(
    printed: &mut Vec<u8>,
    spec: &Spec,
    pool: u32,
    place: FieldRef,
    field: &Field,
    text: &[u8],
) -> Result<Option<CellSet>, NoMemory>
    requires declared { declared_field spec.now.base place ≡ Some field.now }
    requires of_pool { IsOfPool spec.now.base pool place.structure }
    ensures { IfOk result (Reads (IsSetAt spec.now pool place) (set_line spec.now) text.now) }
{
    if !has_name(field) {
        return Ok(None);
    }
    let name = field_name(spec, place.structure, place.field);
    if !is_ahead(name, field_ahead(spec, pool, text)) {
        return Ok(None);
    }
    let path = Path {
        field: place,
        indexed: field.len.is_some(),
    };
    let set = set_in(spec, pool, path, text);
    if !is_record(spec, set.elem) {
        return Ok(None);
    }
    if !is_set(printed, spec, &set, text)? {
        return Ok(None);
    }
    Ok(Some(set))
}

// What the line tells of a field of this structure.
fn read_set_under(
    printed: &mut Vec<u8>,
    spec: &Spec,
    pool: u32,
    number: u32,
    structure: &Structure,
    text: &[u8],
) -> Result<Option<CellSet>, NoMemory>
    requires declared { slice_get spec.now.base.structures number ≡ Some structure.now }
    requires few { length structure.now.fields < 2 ^ 32 }
    requires of_pool { IsOfPool spec.now.base pool number }
    ensures { IfOk result (Reads (IsSetUnder spec.now pool number) (set_line spec.now) text.now) }
{
    for (own, field) in structure.fields.items().iter().enumerate() {
        let place = FieldRef {
            structure: number,
            field: own as u32,
        };
        let found = read_set_at(printed, spec, pool, place, field, text)?;
        if found.is_some() {
            return Ok(found);
        }
    }
    Ok(None)
}

// What the line tells of a record of this pool: of the first field with the line's name.
fn read_set_in(
    printed: &mut Vec<u8>,
    spec: &Spec,
    pool: u32,
    text: &[u8],
) -> Result<Option<CellSet>, NoMemory>
    requires typed { AreTyped spec.now.base }
    ensures { IfOk result (Reads (IsFirstSetIn spec.now pool) (set_line spec.now) text.now) }
{
    if !is_ahead(pool_name(spec, pool), skip(text, 6)) {
        return Ok(None);
    }
    for (place, structure) in spec.base.structures.items().iter().enumerate() {
        let number = place as u32;
        if !is_of_pool(&spec.base, pool, number) {
            continue;
        }
        let found = read_set_under(printed, spec, pool, number, structure, text)?;
        if found.is_some() {
            return Ok(found);
        }
    }
    Ok(None)
}

pub fn read_set(
    printed: &mut Vec<u8>,
    spec: &Spec,
    text: &[u8],
) -> Result<Option<CellSet>, NoMemory>
    requires typed { AreTyped spec.now.base }
    ensures { IfOk result (Reads (IsFirstSet spec.now) (set_line spec.now) text.now) }
{
    let count = spec.base.pools.items().len() as u32;
    for pool in 0..count + 1 {
        let found = read_set_in(printed, spec, pool, text)?;
        if found.is_some() {
            return Ok(found);
        }
    }
    Ok(None)
}
