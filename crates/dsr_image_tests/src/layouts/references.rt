// What values of references mean, and the codes of slots.
ghost use Rattle.std.specs.Prelude.{◌<◌, IsSome, IsSomeAnd};
ghost use Rattle.std.specs.Bool.{OnTrue};
ghost use Rattle.dsr_ir.specs.Layouts.{pool_numbers};
ghost use Rattle.dsr_meaning.specs.Legal.{IsLegalLayout};

use dsr_ir::Layout;
use dsr_layout::{Ref, code_of, pool_numbers, slot_of};
use dsr_test_text::Lines;

fn has_pool(layout: &Layout, pool: u32) -> bool
    ensures { OnTrue result (IsSome (pool_numbers layout.now pool)) }
{
    pool_numbers(layout, pool).is_some()
}

fn has_slot(layout: &Layout, pool: u32, slot: u32) -> bool
    ensures { OnTrue result (IsSomeAnd (pool_numbers layout.now pool) (λ n. slot < n.count)) }
{
    match pool_numbers(layout, pool) {
        Some(numbers) => u64::from(slot) < numbers.count,
        None => false,
    }
}

/// What the value of a reference to a pool means.
pub fn add_meaning(lines: &mut Lines, layout: &Layout, pool: u32, value: u64)
    requires legal { IsLegalLayout layout.now }
{
    if !has_pool(layout, pool) {
        lines.word("undeclared");
        return;
    }
    match slot_of(layout, pool, value) {
        Ref::None => lines.word("none"),
        Ref::Slot(slot) => lines.part("slot ", u64::from(slot)),
        Ref::Illegal => lines.word("illegal"),
    }
}

/// The code of a slot, where it means that slot again.
pub fn add_code(lines: &mut Lines, layout: &Layout, pool: u32, slot: u32)
    requires legal { IsLegalLayout layout.now }
{
    if !has_pool(layout, pool) || !has_slot(layout, pool, slot) {
        lines.word("no slot");
        return;
    }
    let code = code_of(layout, pool, slot);
    if slot_of(layout, pool, code) == Ref::Slot(slot) {
        lines.number(code);
    } else {
        lines.word("another slot's");
    }
}
