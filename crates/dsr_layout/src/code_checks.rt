// Codes that don't fit the fields that refer to a pool.
ghost use Rattle.std.specs.Prelude.{◌≡◌, ◌≤◌, All, length, map};
ghost use Rattle.dsr_meaning.specs.Cells.{width_bits};
ghost use Rattle.dsr_meaning.specs.Lists.{each_at};
ghost use Rattle.dsr_meaning.specs.Refusals as meaning;
ghost use Rattle.dsr_meaning.specs.Refusals.{reference_refusals, code_refusals};
ghost use Rattle.dsr_layout.specs.Pools.{IsComputable, HasFewFields};
ghost use Rattle.dsr_layout.specs.Telling.{told_of};
ghost use Rattle.dsr_meaning.specs.Limits.{most_fields, most_structures};

use crate::faults::LayoutFault;
use crate::lookups::pool_numbers;
use crate::pools::last_code;
use dsr_ir::{Field, Kind, Layout, PoolNumbers, Structure, Width};
use dsr_schema::width_bits;

/// Whether a number fits an entry.
pub fn fits(width: Width, value: u64) -> bool
    ensures { result ≡ meaning.fits (width_bits width) value }
{
    let bits = width_bits(width);
    bits >= 64 || value >> bits == 0
}

fn codes_fit(width: Width, pool: &PoolNumbers) -> bool
    requires computable { IsComputable pool.now }
    ensures { result ≡ meaning.codes_fit (width_bits width) pool.now }
{
    fits(width, pool.none) && (pool.count == 0 || fits(width, last_code(pool)))
}

// A field, by its number and its structure's, that refers to a pool whose codes don't fit it.
fn reference(layout: &Layout, structure: u32, number: u32, field: &Field) -> Option<LayoutFault>
    requires computable { All IsComputable layout.now.pools }
    ensures { result ≡ told_of (reference_refusals layout.now structure number field.now) }
{
    let Kind::Refers { pool } = field.kind else {
        return None;
    };
    let numbers = pool_numbers(layout, pool)?;
    if codes_fit(field.width, &numbers) {
        None
    } else {
        Some(LayoutFault::CodeTooWide(pool, structure, number))
    }
}

// The first such field of a structure.
fn own_reference(layout: &Layout, structure: u32, fields: &[Field]) -> Option<LayoutFault>
    requires few { length fields.now ≤ most_fields }
    requires computable { All IsComputable layout.now.pools }
    ensures { result ≡ told_of (each_at (reference_refusals layout.now structure) 0 fields.now) }
{
    for (i, field) in fields.iter().enumerate() {
        let fault = reference(layout, structure, i as u32, field);
        if fault.is_some() {
            return fault;
        }
    }
    None
}

/// The first such field of all structures.
pub fn code_too_wide(layout: &Layout, structures: &[Structure]) -> Option<LayoutFault>
    requires few { length structures.now ≤ most_structures }
    requires few_fields { All HasFewFields structures.now }
    requires computable { All IsComputable layout.now.pools }
    ensures { result ≡ told_of (code_refusals structures.now layout.now) }
{
    for (i, structure) in structures.iter().enumerate() {
        let fault = own_reference(layout, i as u32, structure.fields.items());
        if fault.is_some() {
            return fault;
        }
    }
    None
}
