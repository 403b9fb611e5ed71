// Pools that lie outside of the image or over each other, whose slots are too small, or whose codes
// are no codes.
ghost use Rattle.std.specs.Prelude.{◌≡◌, ◌≤◌, ◌<◌, ◌+◌, suc, ◌∷◌, All, IfOk, length, map};
ghost use Rattle.dsr_meaning.specs.Lists.{each_at};
ghost use Rattle.dsr_meaning.specs.Refusals as meaning;
ghost use Rattle.dsr_meaning.specs.Refusals.{outside_refusals, refused_when, overlaps, overlap_refusals, view_refusals, set_refusals, subtype_refusals, zero_refusals, none_refusals, is_code_below};
ghost use Rattle.dsr_layout.specs.Pools.{IsComputable, HasStep};
ghost use Rattle.dsr_layout.specs.Ranges.{range_of};
ghost use Rattle.dsr_layout.specs.Tables.{size_in};
ghost use Rattle.dsr_layout.specs.Telling.{told_of};

use crate::faults::LayoutFault;
use crate::lookups::pool_numbers;
use crate::pools::{bytes_of, pool_end};
use crate::references::slot_with;
use dsr_ir::{Layout, NoMemory, Pool, PoolNumbers, SetDecl};
use std::alloc::Global;

/// The first pool that ends behind the image.
pub fn outside(layout: &Layout) -> Option<LayoutFault>
    requires few { length layout.now.pools ≤ 32 }
    requires computable { All IsComputable layout.now.pools }
    ensures { result ≡ told_of (outside_refusals layout.now) }
{
    for (i, pool) in layout.pools.items().iter().enumerate() {
        if layout.length < pool_end(pool) {
            return Some(LayoutFault::Outside(i as u32 + 1));
        }
    }
    None
}

/// Bytes from one on to the one before another.
#[derive(Clone, Copy)]
struct ByteRange {
    first: u64,
    behind: u64,
}

fn pool_range(pool: &PoolNumbers) -> ByteRange
    requires computable { IsComputable pool.now }
    ensures { range_of result ≡ meaning.pool_range pool.now }
{
    ByteRange {
        first: pool.start,
        behind: pool_end(pool),
    }
}

// The bytes of the head and of all pools.
fn ranges(alloc: Global, head: u64, pools: &[PoolNumbers]) -> Result<Vec<ByteRange>, NoMemory>
    requires computable { All IsComputable pools.now }
    ensures { IfOk result (λ ranges. map range_of ranges.items ≡ record { first = 0; behind = head }
        ∷ map meaning.pool_range pools.now) }
{
    let mut ranges = Vec::new(alloc);
    ranges.push(ByteRange {
        first: 0,
        behind: head,
    })?;
    for pool in pools {
        ranges.push(pool_range(pool))?;
    }
    Ok(ranges)
}

// Whether some byte lies in both.
fn share_byte(a: &ByteRange, b: &ByteRange) -> bool
    ensures { result ≡ meaning.share_byte (range_of a.now) (range_of b.now) }
{
    a.first.max(b.first) < a.behind.min(b.behind)
}

// The first of the later ranges that shares a byte with this one.
fn overlap_with(range: &ByteRange, number: u32, later: &[ByteRange]) -> Option<LayoutFault>
    requires few { number + length later.now ≤ 32 }
    ensures { result ≡ told_of
        (each_at (λ q r. refused_when (meaning.share_byte (range_of range.now) r)
        (meaning.Overlap number q)) (suc number) (map range_of later.now)) }
{
    for (i, other) in later.iter().enumerate() {
        if share_byte(range, other) {
            return Some(LayoutFault::Overlap(number, number + 1 + i as u32));
        }
    }
    None
}

// The first two ranges that share a byte.
fn first_overlap(ranges: &[ByteRange]) -> Option<LayoutFault>
    requires few { length ranges.now ≤ 33 }
    ensures { result ≡ told_of (overlaps 0 (map range_of ranges.now)) }
{
    for (i, range) in ranges.iter().enumerate() {
        let fault = overlap_with(range, i as u32, &ranges[i + 1..]);
        if fault.is_some() {
            return fault;
        }
    }
    None
}

/// The first two pools, or the head and a pool, that share a byte.
pub fn overlap(
    alloc: Global,
    ends: &[Option<u64>],
    head: u32,
    layout: &Layout,
) -> Result<Option<LayoutFault>, NoMemory>
    requires few { length layout.now.pools ≤ 32 }
    requires computable { All IsComputable layout.now.pools }
    ensures { IfOk result (λ fault. fault ≡ told_of (overlap_refusals (size_in ends.now) head layout.now)) }
{
    let head = bytes_of(ends, head).unwrap_or(0);
    let ranges = ranges(alloc, head, layout.pools.items())?;
    Ok(first_overlap(&ranges))
}

// Whether a structure is larger than a slot of a pool.
fn is_larger(ends: &[Option<u64>], layout: &Layout, pool: u32, structure: u32) -> bool
    ensures { result ≡ meaning.is_larger (size_in ends.now) layout.now pool structure }
{
    match (pool_numbers(layout, pool), bytes_of(ends, structure)) {
        (Some(numbers), Some(bytes)) => numbers.slot < bytes,
        _ => false,
    }
}

// A structure by which slots of a pool are read, where it is larger than they are.
fn view(ends: &[Option<u64>], layout: &Layout, pool: u32, structure: u32) -> Option<LayoutFault>
    ensures { result ≡ told_of (view_refusals (size_in ends.now) layout.now pool structure) }
{
    if is_larger(ends, layout, pool, structure) {
        Some(LayoutFault::Subtype(pool, structure))
    } else {
        None
    }
}

// The first set of a pool whose structure is larger than a slot.
fn set_view(
    ends: &[Option<u64>],
    layout: &Layout,
    pool: u32,
    sets: &[SetDecl],
) -> Option<LayoutFault>
    ensures { result ≡ told_of (set_refusals (size_in ends.now) layout.now pool sets.now) }
{
    for set in sets {
        if set.pool == pool && is_larger(ends, layout, pool, set.structure) {
            return Some(LayoutFault::Subtype(pool, set.structure));
        }
    }
    None
}

/// The first pool whose slots are smaller than its structure or that of a set.
pub fn subtype(
    ends: &[Option<u64>],
    sets: &[SetDecl],
    pools: &[Pool],
    layout: &Layout,
) -> Option<LayoutFault>
    requires few { length pools.now ≤ 32 }
    ensures { result ≡ told_of (subtype_refusals (size_in ends.now) sets.now pools.now layout.now) }
{
    for (i, pool) in pools.iter().enumerate() {
        let number = i as u32 + 1;
        let own = view(ends, layout, number, pool.structure);
        let fault = own.or(set_view(ends, layout, number, sets));
        if fault.is_some() {
            return fault;
        }
    }
    None
}

/// The first pool with a step or a slot of 0.
pub fn zero(layout: &Layout) -> Option<LayoutFault>
    requires few { length layout.now.pools ≤ 32 }
    ensures { result ≡ told_of (zero_refusals layout.now) }
{
    for (i, pool) in layout.pools.items().iter().enumerate() {
        if pool.step == 0 || pool.slot == 0 {
            return Some(LayoutFault::Zero(i as u32 + 1));
        }
    }
    None
}

fn is_none_code(pool: &PoolNumbers) -> bool
    requires step { 0 < pool.now.step }
    ensures { result ≡ is_code_below pool.now pool.now.none pool.now.count }
{
    slot_with(pool, pool.none).is_some()
}

/// The first pool whose code of no slot is the code of a slot.
pub fn none_is_code(layout: &Layout) -> Option<LayoutFault>
    requires few { length layout.now.pools ≤ 32 }
    requires steps { All HasStep layout.now.pools }
    ensures { result ≡ told_of (none_refusals layout.now) }
{
    for (i, pool) in layout.pools.items().iter().enumerate() {
        if is_none_code(pool) {
            return Some(LayoutFault::NoneIsCode(i as u32 + 1));
        }
    }
    None
}
