// The cells of records, and their values.
ghost use Rattle.dsr_meaning.specs.Legal.{IsLegalLayout};

use crate::entries::has_entry;
use dsr_image::{ImageBytes, Whole};
use dsr_ir::{Cell, Element, FieldRef, Layout, Order};
use dsr_layout::cell;
use dsr_test_text::Lines;

/// An entry of a field of a record.
#[derive(Clone, Copy)]
pub struct Entry {
    pub elem: Element,
    pub field: FieldRef,
    pub index: u64,
}

fn add_value(lines: &mut Lines, cell: &Cell, value: u64) {
    lines.part("bit ", cell.bit);
    lines.part(" width ", u64::from(cell.width));
    lines.word(if cell.bytewise { " bytes" } else { " bits" });
    lines.word(match cell.order {
        Order::Little => " little ",
        Order::Big => " big ",
    });
    lines.number(value);
}

/// The cell of an entry and its value; `none` where the record has no such entry.
pub fn add_cell(lines: &mut Lines, layout: &Layout, image: &Whole, entry: Entry)
    requires legal { IsLegalLayout layout.now }
{
    let Entry { elem, field, index } = entry;
    if image.len() != layout.length || !has_entry(layout, elem, field, index) {
        lines.word("none");
        return;
    }
    let cell = cell(layout, elem, field, index);
    add_value(lines, &cell, image.get(&cell));
}
