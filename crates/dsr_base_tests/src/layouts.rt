// A layout with its numbers.
ghost use Rattle.std.specs.Prelude.{◌≡◌, IfOk, IsSome};
ghost use Rattle.dsr_ir.specs.Layouts.{pool_numbers, field_place};

use crate::copies::one;
use dsr_ir::{FieldPlace, FieldRef, Layout, NoMemory, Order, PoolNumbers, Width};
use std::alloc::Global;

const FIELD: FieldRef = FieldRef {
    structure: 0,
    field: 0,
};

const NUMBERS: PoolNumbers = PoolNumbers {
    start: 16,
    slot: 12,
    count: 8,
    code: 1,
    step: 3,
    none: 0,
};

const PLACE: FieldPlace = FieldPlace {
    bit: 5,
    width: Width::Bits(3),
    length: Some(9),
};

fn layout(alloc: Global) -> Result<Layout, NoMemory>
    ensures pool { IfOk result (λ l. IsSome (pool_numbers l 1)) }
    ensures field { IfOk result (λ l. IsSome (field_place l FIELD)) }
{
    let pools = one(alloc, NUMBERS)?;
    let fields = one(alloc, one(alloc, PLACE)?)?;
    Ok(Layout {
        length: 112,
        order: Order::Big,
        pools,
        fields,
    })
}

fn tells_pool(layout: &Layout) -> bool
    requires { IsSome (pool_numbers layout.now 1) }
{
    layout.start(1) == 16
        && layout.slot(1) == 12
        && layout.count(1) == 8
        && layout.code(1) == 1
        && layout.step(1) == 3
        && layout.none(1) == 0
}

fn tells_field(layout: &Layout) -> bool
    requires { IsSome (field_place layout.now FIELD) }
{
    layout.bit_offset(FIELD) == 5
        && layout.width(FIELD) == Width::Bits(3)
        && layout.array_length(FIELD) == Some(9)
}

fn is_told(alloc: Global) -> Result<bool, NoMemory> {
    let layout = layout(alloc)?;
    let is_whole = layout.length() == 112 && layout.order() == Order::Big;
    Ok(is_whole && tells_pool(&layout) && tells_field(&layout))
}

pub fn are_told(alloc: Global) -> bool {
    is_told(alloc).unwrap_or(false)
}
