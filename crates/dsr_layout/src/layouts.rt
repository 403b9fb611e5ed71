// The layout of a specification on an image.
ghost use Rattle.std.specs.Prelude.{◌≡◌, ◌≤◌, ◌++◌, All, IfOk, IfErr, length};
ghost use Rattle.dsr_meaning.specs.Legal.{IsLegalLayout};
ghost use Rattle.dsr_meaning.specs.Refusals as meaning;
ghost use Rattle.dsr_meaning.specs.Refusals.{IsLayoutOf, refusals, layout_refusals, size_refusals, value_refusals};
ghost use Rattle.dsr_meaning.specs.Placeable.{ArePlaceable, IsPlaceable};
ghost use Rattle.dsr_layout.specs.Checks.{place_refusals, number_refusals};
ghost use Rattle.dsr_layout.specs.Pools.{IsComputable, HasStep};
ghost use Rattle.dsr_layout.specs.Readings.{IsRead, IsMade};
ghost use Rattle.dsr_layout.specs.Tables.{known, size_in, HoldsEnds};
ghost use Rattle.dsr_layout.specs.Telling.{told_of, Tells};
ghost use Rattle.dsr_meaning.specs.Limits.{most_bytes};

use crate::code_checks::code_too_wide;
use crate::count_checks::count_too_wide;
use crate::faults::LayoutFault;
use crate::fixed_fields::fixed_values;
use crate::instances::too_many_instances;
use crate::places::{ends, places, size_in};
use crate::pool_checks::{none_is_code, outside, overlap, subtype, zero};
use crate::pools::pools_of;
use dsr_ir::{Layout, NoMemory, Seq, Spec, Structures};
use std::alloc::Global;

// `Short` where the image ends before the head does.
fn short_head(ends: &[Option<u64>], head: u32, length: u64) -> Option<LayoutFault>
    requires image { length ≤ most_bytes }
    ensures { result ≡ told_of (meaning.head_refusals (size_in ends.now) head length) }
{
    if 8 * length < size_in(ends, head)? {
        Some(LayoutFault::Short)
    } else {
        None
    }
}

// The first reason to refuse where pools lie.
fn place_fault(
    alloc: Global,
    base: &Structures,
    ends: &[Option<u64>],
    layout: &Layout,
) -> Result<Option<LayoutFault>, NoMemory>
    requires few { length base.now.pools ≤ 32 }
    requires few_numbers { length layout.now.pools ≤ 32 }
    requires computable { All IsComputable layout.now.pools }
    ensures { IfOk result (λ fault. fault ≡ told_of (place_refusals (size_in ends.now) base.now layout.now)) }
{
    let fault = outside(layout);
    if fault.is_some() {
        return Ok(fault);
    }
    let fault = overlap(alloc, ends, base.head, layout)?;
    if fault.is_some() {
        return Ok(fault);
    }
    let fault = subtype(ends, base.sets.items(), base.pools.items(), layout);
    if fault.is_some() {
        return Ok(fault);
    }
    Ok(zero(layout))
}

// The first reason to refuse codes and counts.
fn code_fault(spec: &Spec, layout: &Layout) -> Option<LayoutFault>
    requires placeable { IsPlaceable spec.now }
    requires few { length layout.now.pools ≤ 32 }
    requires computable { All IsComputable layout.now.pools }
    requires steps { All HasStep layout.now.pools }
    ensures { result ≡ told_of (number_refusals spec.now spec.now.base layout.now) }
{
    let fault = none_is_code(layout);
    if fault.is_some() {
        return fault;
    }
    let fault = code_too_wide(layout, spec.base.structures.items());
    if fault.is_some() {
        return fault;
    }
    let fault = count_too_wide(spec, layout);
    if fault.is_some() {
        return fault;
    }
    too_many_instances(spec, layout)
}

// The first reason to refuse a layout whose numbers all have values.
fn layout_fault(
    alloc: Global,
    spec: &Spec,
    ends: &[Option<u64>],
    layout: &Layout,
) -> Result<Option<LayoutFault>, NoMemory>
    requires placeable { IsPlaceable spec.now }
    requires few { length layout.now.pools ≤ 32 }
    requires computable { All IsComputable layout.now.pools }
    ensures { IfOk result (λ fault. fault
        ≡ told_of (layout_refusals (size_in ends.now) spec.now spec.now.base layout.now)) }
{
    let fault = place_fault(alloc, &spec.base, ends, layout)?;
    if fault.is_some() {
        return Ok(fault);
    }
    Ok(code_fault(spec, layout))
}

/// What the fixed fields of an image tell: their values, and by these where each structure ends.
#[derive(Drop)]
struct Readings {
    fixed: Vec<Option<u64>>,
    ends: Vec<Option<u64>>,
}

// The readings of an image that isn't short.
fn read(alloc: Global, spec: &Spec, bytes: &[u8]) -> Result<Readings, LayoutFault>
    requires placeable { IsPlaceable spec.now }
    requires image { length bytes.now ≤ most_bytes }
    ensures read { IfOk result (λ r. IsRead spec.now.base bytes.now r.fixed.items r.ends.items) }
    ensures refused { IfErr result (Tells (refusals spec.now bytes.now)) }
{
    let base = &spec.base;
    let fixed = fixed_values(alloc, base, bytes)?;
    let ends = ends(alloc, &fixed, base.structures.items())?;
    match short_head(&ends, base.head, bytes.len() as u64) {
        Some(fault) => Err(fault),
        None => Ok(Readings { fixed, ends }),
    }
}

// The layout by what was read; `Arith` where a number has no value.
fn made(
    alloc: Global,
    base: &Structures,
    length: u64,
    fixed: &[Option<u64>],
    ends: &[Option<u64>],
) -> Result<Layout, LayoutFault>
    requires placeable { ArePlaceable base.now }
    requires ends { HoldsEnds (known fixed.now) base.now.structures ends.now }
    ensures made { IfOk result (IsMade base.now length fixed.now ends.now) }
    ensures refused { IfErr result
        (Tells (size_refusals (size_in ends.now) base.now.structures
        ++ value_refusals (known fixed.now) (size_in ends.now) base.now.pools)) }
{
    let fields = places(alloc, fixed, ends, base.structures.items())?;
    let pools = pools_of(alloc, fixed, ends, base.pools.items())?;
    Ok(Layout {
        length,
        order: base.order,
        pools: Seq::new(pools),
        fields: Seq::new(fields),
    })
}

/// The layout of a specification on an image: the numbers that its expressions have there. Where
/// it is refused, the fault is the first of the least kind, by order of declaration.
pub fn layout(alloc: Global, spec: &Spec, bytes: &[u8]) -> Result<Layout, LayoutFault>
    requires placeable { IsPlaceable spec.now }
    requires image { length bytes.now ≤ most_bytes }
    ensures layout { IfOk result (λ layout. IsLayoutOf spec.now bytes.now layout) }
    ensures legal { IfOk result IsLegalLayout }
    ensures refused { IfErr result (Tells (refusals spec.now bytes.now)) }
{
    let readings = read(alloc, spec, bytes)?;
    let length = bytes.len() as u64;
    let layout = made(alloc, &spec.base, length, &readings.fixed, &readings.ends)?;
    match layout_fault(alloc, spec, &readings.ends, &layout)? {
        Some(fault) => Err(fault),
        None => Ok(layout),
    }
}
