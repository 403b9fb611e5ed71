// Records that are members in one image and not in another one.
use dsr_ir::Element;
use dsr_layout::{record_count, set_pool};
use dsr_show::{ImageModel, is_member, push_element};
use dsr_wording::Text;

// How many records are listed.
const MOST: u64 = 10;

// Appends what stands before a record of a list with so many ones before it: what becomes of the
// members of a set stands before the first one.
fn push_before(text: &mut Text, listed: u64, name: &[u8], how: &str) {
    if listed > 0 {
        text.push(", ");
    } else {
        text.push(how);
        text.push(" ");
        text.name(name);
        text.push(": ");
    }
}

// Appends the members of a set in one image that are none in the other one, and tells how many;
// only the first ones where there are many.
fn push_others(
    text: &mut Text,
    image: &ImageModel<'_>,
    other: &ImageModel<'_>,
    set: u32,
    name: &[u8],
    how: &str,
) -> u64 {
    let pool = set_pool(image.spec, set);
    let slots = u32::try_from(record_count(&image.layout, pool)).unwrap_or(u32::MAX);
    let mut listed = 0u64;
    for slot in 0..slots {
        let elem = Element { pool, slot };
        if !is_member(image, set, elem) || is_member(other, set, elem) {
            continue;
        }
        if listed == MOST {
            text.push(", ..");
            return listed;
        }
        push_before(text, listed, name, how);
        push_element(text, image.spec, elem);
        listed = listed.saturating_add(1);
    }
    listed
}

/// Appends the members of a set in one image that are none in the other one, the first ones where
/// there are many; nothing where there are none.
pub fn push_change(
    text: &mut Text,
    image: &ImageModel<'_>,
    other: &ImageModel<'_>,
    set: u32,
    name: &[u8],
    how: &str,
) {
    if push_others(text, image, other, set, name, how) > 0 {
        text.push("\n");
    }
}
