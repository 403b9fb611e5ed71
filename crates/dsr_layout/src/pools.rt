// The numbers of pools.
ghost use Rattle.std.specs.Prelude.{◌≡◌, ◌<◌, ◌+◌, ◌*◌, [], All, Some, IfOk, IfErr};
ghost use Rattle.dsr_meaning.specs.Expressions.{in_range};
ghost use Rattle.dsr_meaning.specs.Layouts as meaning;
ghost use Rattle.dsr_meaning.specs.Refusals.{is_computable, value_refusals};
ghost use Rattle.dsr_layout.specs.Pools.{IsComputable, computed};
ghost use Rattle.dsr_layout.specs.Tables.{known, size_in};
ghost use Rattle.dsr_layout.specs.Telling.{Tells};

use crate::faults::LayoutFault;
use crate::places::size_in;
use crate::values::value_of;
use dsr_ir::{Expr, Pool, PoolNumbers};
use std::alloc::Global;

/// The size of a structure in bytes.
pub fn bytes_of(ends: &[Option<u64>], structure: u32) -> Option<u64>
    ensures { result ≡ meaning.bytes_of (size_in ends.now) structure }
{
    Some(size_in(ends, structure)? / 8)
}

// The bytes of a slot.
fn slot_bytes(
    fixed: &[Option<u64>],
    ends: &[Option<u64>],
    structure: u32,
    slot: &Option<Expr>,
) -> Option<u64>
    ensures { result ≡ meaning.slot_bytes (known fixed.now) (size_in ends.now) structure slot.now }
{
    match slot {
        Some(slot) => value_of(fixed, slot),
        None => bytes_of(ends, structure),
    }
}

fn pool_of(fixed: &[Option<u64>], ends: &[Option<u64>], pool: &Pool) -> Option<PoolNumbers>
    ensures { result ≡ meaning.pool_of (known fixed.now) (size_in ends.now) pool.now }
{
    Some(PoolNumbers {
        count: value_of(fixed, &pool.count)?,
        slot: slot_bytes(fixed, ends, pool.structure, &pool.slot)?,
        start: value_of(fixed, &pool.start)?,
        code: value_of(fixed, &pool.code)?,
        step: value_of(fixed, &pool.step)?,
        none: value_of(fixed, &pool.none)?,
    })
}

// A number and so many equal steps, where no value goes over 64 bits.
fn after_steps(start: u64, count: u64, step: u64) -> Option<u64>
    ensures { result ≡ in_range (start + count * step) }
{
    start.checked_add(count.checked_mul(step)?)
}

// Whether the end of a pool has a value, and its last code where it has a slot.
fn is_computable(pool: &PoolNumbers) -> bool
    ensures { result ≡ is_computable pool.now }
{
    after_steps(pool.start, pool.count, pool.slot).is_some()
        && (pool.count == 0 || after_steps(pool.code, pool.count - 1, pool.step).is_some())
}

/// The byte behind a pool.
pub fn pool_end(pool: &PoolNumbers) -> u64
    requires computable { IsComputable pool.now }
    ensures { result ≡ meaning.pool_end pool.now }
{
    pool.start + pool.count * pool.slot
}

/// The code of the last slot of a pool that has one.
pub fn last_code(pool: &PoolNumbers) -> u64
    requires computable { IsComputable pool.now }
    requires some { 0 < pool.now.count }
    ensures { result ≡ meaning.last_code pool.now }
{
    pool.code + (pool.count - 1) * pool.step
}

// The numbers of a pool, where they, its end and its last code have values.
fn computed(fixed: &[Option<u64>], ends: &[Option<u64>], pool: &Pool) -> Option<PoolNumbers>
    ensures { result ≡ computed (meaning.pool_of (known fixed.now) (size_in ends.now) pool.now) }
{
    let numbers = pool_of(fixed, ends, pool)?;
    if is_computable(&numbers) {
        Some(numbers)
    } else {
        None
    }
}

/// The numbers of all pools; `Arith` where one of them has no value.
pub fn pools_of(
    alloc: Global,
    fixed: &[Option<u64>],
    ends: &[Option<u64>],
    pools: &[Pool],
) -> Result<Vec<PoolNumbers>, LayoutFault>
    ensures numbers { IfOk result
        (λ numbers. meaning.pools_of (known fixed.now) (size_in ends.now) pools.now
        ≡ Some numbers.items) }
    ensures computable { IfOk result (λ numbers. All IsComputable numbers.items) }
    ensures valued { IfOk result (λ _. value_refusals (known fixed.now) (size_in ends.now) pools.now ≡ []) }
    ensures refused { IfErr result (Tells (value_refusals (known fixed.now) (size_in ends.now) pools.now)) }
{
    let mut numbers = Vec::new(alloc);
    for pool in pools {
        match computed(fixed, ends, pool) {
            Some(computed) => numbers.push(computed)?,
            None => return Err(LayoutFault::Arith),
        }
    }
    Ok(numbers)
}
