// What a specification and a layout have under a number. The look-ups are public, since models ask
// the same questions.
ghost use Rattle.std.specs.Prelude.{◌≡◌};
ghost use Rattle.dsr_ir.specs.Layouts.{pool_numbers, field_place};
ghost use Rattle.dsr_meaning.specs.Instances.{record_count, set_pool};

use dsr_ir::{FieldPlace, FieldRef, Layout, PoolNumbers, Spec};

/// The numbers of a pool, which counts from 1.
pub fn pool_numbers(layout: &Layout, pool: u32) -> Option<PoolNumbers>
    ensures { result ≡ pool_numbers layout.now pool }
{
    if pool == 0 {
        return None;
    }
    layout.pools.items().get(pool as usize - 1).copied()
}

/// The place of a field.
pub fn field_place(layout: &Layout, field: FieldRef) -> Option<FieldPlace>
    ensures { result ≡ field_place layout.now field }
{
    let places = layout.fields.items().get(field.structure as usize)?;
    places.items().get(field.field as usize).copied()
}

/// How many records a pool has; the head is the only one of pool 0.
pub fn record_count(layout: &Layout, pool: u32) -> u64
    ensures { result ≡ record_count layout.now pool }
{
    if pool == 0 {
        return 1;
    }
    match pool_numbers(layout, pool) {
        Some(numbers) => numbers.count,
        None => 0,
    }
}

/// The pool of a set.
pub fn set_pool(spec: &Spec, set: u32) -> u32
    ensures { result ≡ set_pool spec.now set }
{
    match spec.base.sets.items().get(set as usize) {
        Some(set) => set.pool,
        None => 0,
    }
}
