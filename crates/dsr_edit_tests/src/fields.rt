// Which symbols a write of each field affects.
ghost use Rattle.dsr_meaning.specs.Typed.{IsTyped};

use dsr_affected::affected;
use dsr_answers::symbol_name;
use dsr_ir::{FieldRef, Spec};
use dsr_test_text::Lines;
use std::alloc::Global;
use std::str;

fn add_field(lines: &mut Lines, alloc: Global, spec: &Spec, place: FieldRef, name: &[u8])
    requires typed { IsTyped spec.now }
{
    lines.word("affected ");
    lines.word(str::from_utf8(name).unwrap_or("?"));
    let Ok(symbols) = affected(alloc, spec, &[place]) else {
        lines.word(" no memory\n");
        return;
    };
    for symbol in symbols {
        lines.word(" ");
        lines.word(str::from_utf8(symbol_name(spec, symbol)).unwrap_or("?"));
    }
    lines.word("\n");
}

// Adds the symbols that each field of a structure affects.
fn add_own(lines: &mut Lines, alloc: Global, spec: &Spec, structure: u32)
    requires typed { IsTyped spec.now }
{
    let Some(its) = spec.base.structures.items().get(structure as usize) else {
        return;
    };
    for (number, field) in its.fields.items().iter().enumerate() {
        let place = FieldRef {
            structure,
            field: u32::try_from(number).unwrap_or(u32::MAX),
        };
        add_field(lines, alloc, spec, place, field.name.bytes());
    }
}

/// Adds the symbols that each field affects.
pub fn add_fields(lines: &mut Lines, alloc: Global, spec: &Spec)
    requires typed { IsTyped spec.now }
{
    let count = u32::try_from(spec.base.structures.items().len()).unwrap_or(u32::MAX);
    for structure in 0..count {
        add_own(lines, alloc, spec, structure);
    }
}
