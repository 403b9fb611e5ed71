// One test without `?`, since a test costs more to prove than what it calls. A failure tells which
// call it was.
use crate::{
    cells, copies, functional, layouts, marks, numbers, orders, overlays, pairs, relations,
};

#[test]
fn lowest_crates_answer(rt: HostRuntime) {
    let alloc = rt.alloc();
    assert!(rt; copies::are_equal(alloc));
    assert!(rt; layouts::are_told(alloc));
    assert!(rt; orders::are_kept(alloc));
    assert!(rt; orders::inclusions_give());
    assert!(rt; cells::hold_what_is_put(alloc));
    assert!(rt; cells::bytes_stay(alloc).unwrap_or(false));
    assert!(rt; overlays::hold_as_whole_images(alloc).unwrap_or(false));
    assert!(rt; marks::all_answer(alloc));
    assert!(rt; numbers::places_have_numbers(alloc));
    assert!(rt; numbers::are_copied(alloc).unwrap_or(false));
    assert!(rt; numbers::targets_have_sources(alloc));
    assert!(rt; functional::are_asked_in_order(alloc));
    assert!(rt; functional::are_copied(alloc).unwrap_or(false));
    assert!(rt; pairs::are_asked_in_order(alloc));
    assert!(rt; pairs::are_exchanged_in_order(alloc));
    assert!(rt; relations::are_asked_in_order(alloc));
}
