// What the value of a reference means, and the codes of slots.
ghost use Rattle.std.specs.Prelude.{◌≡◌, ◌<◌, ◌+◌, ◌*◌, Some, IfSome, IsSome, IsSomeAnd, is_some};
ghost use Rattle.dsr_ir.specs.Layouts.{pool_numbers};
ghost use Rattle.dsr_meaning.specs.Legal.{IsLegalLayout};
ghost use Rattle.dsr_meaning.specs.References.{IsCodeOf};
ghost use Rattle.dsr_meaning.specs.Refusals.{is_code_below};
ghost use Rattle.dsr_layout.specs.References.{Means};
ghost use Rattle.dsr_layout.specs.declared.references.Ref.{Ref};

use crate::lookups::pool_numbers;
use dsr_ir::{Layout, PoolNumbers};

/// What the value of a reference to a pool means.
#[derive(Clone, Copy, PartialEq, Eq)]
pub enum Ref {
    /// It refers to no slot.
    None,
    /// It is the code of this slot, counted from 0.
    Slot(u32),
    /// It is neither.
    Illegal,
}

/// The slot of a pool that has a code.
pub fn slot_with(pool: &PoolNumbers, value: u64) -> Option<u64>
    requires step { 0 < pool.now.step }
    ensures found { IfSome result
        (λ slot. (slot < pool.now.count) × (value ≡ pool.now.code + slot * pool.now.step)) }
    ensures code { is_some result ≡ is_code_below pool.now value pool.now.count }
{
    let distance = value.checked_sub(pool.code)?;
    let slot = distance / pool.step;
    if distance % pool.step == 0 && slot < pool.count {
        Some(slot)
    } else {
        None
    }
}

// The numbers of a declared pool.
fn declared_pool(layout: &Layout, pool: u32) -> PoolNumbers
    requires declared { IsSome (pool_numbers layout.now pool) }
    ensures { pool_numbers layout.now pool ≡ Some result }
{
    pool_numbers(layout, pool).unwrap()
}

/// What the value of a reference to a declared pool means: none, one slot or illegal, and nothing
/// else besides.
pub fn slot_of(layout: &Layout, pool: u32, value: u64) -> Ref
    requires legal { IsLegalLayout layout.now }
    requires declared { IsSome (pool_numbers layout.now pool) }
    ensures means { Means layout.now pool value result }
    ensures only { (other : Ref) → Means layout.now pool value other → other ≡ result }
{
    let numbers = declared_pool(layout, pool);
    if value == numbers.none {
        return Ref::None;
    }
    match slot_with(&numbers, value) {
        Some(slot) => Ref::Slot(slot as u32),
        None => Ref::Illegal,
    }
}

/// The code of a slot of a declared pool.
pub fn code_of(layout: &Layout, pool: u32, slot: u32) -> u64
    requires legal { IsLegalLayout layout.now }
    requires slot { IsSomeAnd (pool_numbers layout.now pool) (λ n. slot < n.count) }
    ensures { IsCodeOf layout.now pool slot result }
{
    let numbers = declared_pool(layout, pool);
    numbers.code + u64::from(slot) * numbers.step
}
