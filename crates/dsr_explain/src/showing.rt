// What is shown of an image.
ghost use Rattle.std.specs.Prelude.{◌≡◌};
ghost use Rattle.dsr_meaning.specs.Typed.{IsTyped};

use crate::answers::Answer;
use crate::images::{model_of, push_without_layout};
use crate::limits::{IMAGE_LIMIT, LONG_IMAGE, MORE_THAN_IMAGE};
use crate::reading::Meaning;
use dsr_answers::pool_name;
use dsr_ir::{Element, Spec, Symbol};
use dsr_layout::{LayoutFault, record_count};
use dsr_names::Named;
use dsr_script::{Status, Verdict};
use dsr_show::{ImageModel, push_picture, push_record, push_relation, push_set, push_summary};
use dsr_store::{Shelf, ShelfFault};
use dsr_truth::violations;
use dsr_wording::{Text, numbered};

// The number of the first of some declarations with this name, counted from 0.
fn number_named<T: Named>(items: &[T], name: &str) -> Option<u32> {
    for (number, item) in items.iter().enumerate() {
        if let Some(own) = item.own_name()
            && own.bytes() == name.as_bytes()
        {
            return Some(numbered(number));
        }
    }
    None
}

// The number in front of a closing bracket.
fn slot_of(rest: &str) -> Option<u32> {
    rest.strip_suffix("]")?.parse::<u32>().ok()
}

// The slot of a pool that is written as `3]` behind the pool's name and a bracket.
fn record_at(spec: &Spec, name: &str, rest: &str) -> Option<Element> {
    let slot = slot_of(rest)?;
    let number = number_named(spec.base.pools.items(), name)?;
    Some(Element {
        pool: number.saturating_add(1),
        slot,
    })
}

// The record that is meant by a word, as `nodes[3]`.
fn record_named(spec: &Spec, what: &str) -> Option<Element> {
    if what == "head" {
        return Some(Element { pool: 0, slot: 0 });
    }
    match what.split_once('[') {
        Some((name, rest)) => record_at(spec, name, rest),
        None => None,
    }
}

/// The set or relation of a name.
pub fn symbol_named(spec: &Spec, what: &str) -> Option<Symbol> {
    match number_named(spec.base.sets.items(), what) {
        Some(set) => Some(Symbol::Set(set)),
        None => Some(Symbol::Rel(number_named(spec.base.rels.items(), what)?)),
    }
}

// Appends how many slots a pool has.
fn push_slots(told: &mut Text, name: &[u8], count: u64) {
    told.fill("error: pool `{}` has ", &[name]);
    told.number(count);
    told.push(" slots, from 0 on\n");
}

// Shows a record, or tells that its pool hasn't got it.
fn show_slot(answer: &mut Answer, image: &ImageModel<'_>, elem: Element) {
    let count = record_count(&image.layout, elem.pool);
    if u64::from(elem.slot) < count {
        push_record(&mut answer.text, image, elem);
        return;
    }
    answer.status = Status::Said(Verdict::Usage);
    push_slots(&mut answer.told, pool_name(image.spec, elem.pool), count);
}

// Tells that a word names nothing.
fn refuse_name(answer: &mut Answer, what: &str) {
    answer.refuse(Status::Said(Verdict::Usage), "error: `");
    answer.told.push(what);
    answer.told.push("` is no record, as nodes[3] or head, and no set or relation\n");
}

// Shows a set or a relation, or tells that none has this name.
fn show_symbol(answer: &mut Answer, image: &ImageModel<'_>, what: &str) {
    match symbol_named(image.spec, what) {
        Some(Symbol::Set(set)) => push_set(&mut answer.text, image, set),
        Some(Symbol::Rel(rel)) => push_relation(&mut answer.text, image, rel),
        None => refuse_name(answer, what),
    }
}

// Shows what a word names of an image.
fn show_what(answer: &mut Answer, image: &ImageModel<'_>, what: &str) {
    if what.is_empty() {
        push_summary(&mut answer.text, image);
        return;
    }
    match record_named(image.spec, what) {
        Some(elem) => show_slot(answer, image, elem),
        None => show_symbol(answer, image, what),
    }
}

/// How an image is shown.
#[derive(Clone, Copy)]
pub enum View<'a> {
    /// What this word names, or all.
    What(&'a str),
    /// A picture of all of it.
    Picture,
}

// Draws an image, with its violations.
fn draw_image(text: &mut Text, image: &ImageModel<'_>) {
    match violations(text.allocator(), &image.model, image.spec) {
        Ok(violated) => push_picture(text, image, &violated),
        Err(_) => text.cut(),
    }
}

// Shows an image that has a layout.
fn show_model(answer: &mut Answer, image: &ImageModel<'_>, view: View<'_>) {
    match view {
        View::What(what) => show_what(answer, image, what),
        View::Picture => draw_image(&mut answer.text, image),
    }
}

// Tells why an image has no layout.
fn refuse_layout(answer: &mut Answer, spec: &Spec, name: &str, bytes: &[u8], fault: LayoutFault) {
    answer.status = Status::Said(Verdict::LayoutRefused);
    push_without_layout(&mut answer.told, spec, name, bytes, fault);
}

// Shows an image.
fn show_bytes(answer: &mut Answer, meaning: &Meaning, name: &str, bytes: &[u8], view: View<'_>)
    requires { IsTyped meaning.now.spec }
{
    if bytes.len() as u64 > IMAGE_LIMIT {
        answer.refuse(Status::TooLong, LONG_IMAGE);
        return;
    }
    match model_of(answer.allocator(), meaning, bytes) {
        Ok(image) => show_model(answer, &image, view),
        Err(fault) => refuse_layout(answer, &meaning.spec, name, bytes, fault),
    }
}

/// Reads an image, and shows it. Of a file that can't be read the system tells why.
pub fn show_file<F: Shelf>(
    answer: &mut Answer,
    shelf: &mut F,
    meaning: &Meaning,
    name: &str,
    view: View<'_>,
)
    requires { IsTyped meaning.now.spec }
    ensures held { F.held shelf.new ≡ F.held shelf.old }
{
    match shelf.load(answer.allocator(), name, MORE_THAN_IMAGE) {
        Ok(bytes) => show_bytes(answer, meaning, name, &bytes, view),
        Err(ShelfFault::Failed) => answer.refuse(Status::StoreFailed, ""),
        Err(ShelfFault::NoMemory) => answer.cut(),
    }
}
