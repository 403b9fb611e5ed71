// Values of cells, counted by hand.
use crate::{
    bindings_are_ordered, bits_make_values, elements_are_ordered, facts_are_ordered,
    first_violated_is_unique, instances_are_ordered, instances_give_one_fact, models_are_closed,
    models_are_least, others_keep_their_values, sizes_are_unique, targets_are_ordered,
    typed_specifications_are_placeable, value_of_cell, violations_are_unique,
    violations_tell_consistency,
};
use dsr_ir::{Cell, Order};
use std::test::Fail;

#[test]
fn cells_have_their_values(rt: HostRuntime) -> Result<(), Fail> {
    let bytes = [0xc0u8, 0x02, 0x10, 0x0a, 1, 2, 3, 4];
    let cases = [
        // Bits 6 and 7 of the first byte, and bit 1 of the second: 1 + 2 + 8.
        (6, 4, false, Order::Little, 11),
        (9, 1, false, Order::Big, 1),
        (0, 32, false, Order::Little, 0x0a10_02c0),
        (8, 8, true, Order::Little, 2),
        (16, 16, true, Order::Big, 4106),
        (16, 16, true, Order::Little, 0x0a10),
        (32, 32, true, Order::Big, 16_909_060),
        (32, 32, true, Order::Little, 0x0403_0201),
        (0, 64, true, Order::Little, 0x0403_0201_0a10_02c0),
        (0, 64, true, Order::Big, 0xc002_100a_0102_0304),
    ];
    for (i, (bit, width, bytewise, order, value)) in cases.iter().enumerate() {
        let cell = Cell {
            bit: *bit,
            width: *width,
            bytewise: *bytewise,
            order: *order,
        };
        assert!(rt; *bit <= 64 && *width <= 64 && *bit as usize + usize::from(*width) <= 64);
        assert_eq!(rt; value_of_cell(&bytes, &cell), *value, "cell {i}");
    }
    Ok(())
}

// Laws do nothing when they run.
#[test]
fn laws_return() {
    typed_specifications_are_placeable();
    instances_give_one_fact();
    models_are_closed();
    models_are_least();
    sizes_are_unique();
    violations_are_unique();
    violations_tell_consistency();
    first_violated_is_unique();
    elements_are_ordered();
    targets_are_ordered();
    facts_are_ordered();
    instances_are_ordered();
    bindings_are_ordered();
    others_keep_their_values();
    bits_make_values();
}
