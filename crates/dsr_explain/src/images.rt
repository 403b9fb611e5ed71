// What is wrong with an image, and what a repair changed of one.
ghost use Rattle.std.specs.Prelude.{◌≤◌, length};
ghost use Rattle.dsr_meaning.specs.Limits.{most_bytes};
ghost use Rattle.dsr_meaning.specs.Typed.{IsTyped};

use crate::limits::IMAGE_LIMIT;
use crate::reading::Meaning;
use crate::reports::members_told;
use crate::violations::violations_told;
use dsr_ir::Spec;
use dsr_layout::LayoutFault;
use dsr_layout_diagnosis::push_fault;
use dsr_show::{ImageModel, image_model};
use dsr_wording::Text;
use std::alloc::Global;

/// What a specification says of an image, or why the image has no layout.
pub fn model_of<'a>(
    alloc: Global,
    meaning: &'a Meaning,
    bytes: &[u8],
) -> Result<ImageModel<'a>, LayoutFault>
    requires typed { IsTyped meaning.now.spec }
    requires small { length bytes.now ≤ most_bytes }
{
    match Vec::from_slice(alloc, bytes) {
        Ok(copy) => image_model(alloc, &meaning.spec, copy),
        Err(_) => Err(LayoutFault::NoMemory),
    }
}

/// Appends why an image has no layout.
pub fn push_without_layout(
    text: &mut Text,
    spec: &Spec,
    name: &str,
    bytes: &[u8],
    fault: LayoutFault,
) {
    text.push(name);
    text.push(": error: the image has no layout by this specification\n");
    push_fault(text, spec, bytes, fault);
}

// Appends which constraints an image violates.
fn push_inconsistent(text: &mut Text, meaning: &Meaning, name: &str, image: &ImageModel<'_>) {
    text.push(name);
    text.push(": error: the image is inconsistent\n");
    violations_told(text, image, meaning);
}

/// Appends which constraints an image violates, or why it has no layout; nothing where it is too
/// long.
pub fn image_told(text: &mut Text, meaning: &Meaning, name: &str, bytes: &[u8])
    requires { IsTyped meaning.now.spec }
{
    if bytes.len() as u64 > IMAGE_LIMIT {
        return;
    }
    match model_of(text.allocator(), meaning, bytes) {
        Ok(image) => push_inconsistent(text, meaning, name, &image),
        Err(fault) => push_without_layout(text, &meaning.spec, name, bytes, fault),
    }
}

// Keeps that memory ran out, where that is why there is no model.
fn keep_fault(text: &mut Text, fault: LayoutFault) {
    match fault {
        LayoutFault::NoMemory => text.cut(),
        _ => {}
    }
}

// Appends which records are members in the second image, and aren't in the first one, or the other
// way round.
fn push_difference(text: &mut Text, meaning: &Meaning, before: &ImageModel<'_>, after: &[u8])
    requires { IsTyped meaning.now.spec }
{
    if after.len() as u64 > IMAGE_LIMIT {
        return;
    }
    match model_of(text.allocator(), meaning, after) {
        Ok(after) => members_told(text, before, &after),
        Err(fault) => keep_fault(text, fault),
    }
}

/// Appends which records are members after a repair, and weren't before, or the other way round;
/// nothing where an image is too long or has no layout.
pub fn push_members(text: &mut Text, meaning: &Meaning, before: &[u8], after: &[u8])
    requires { IsTyped meaning.now.spec }
{
    if before.len() as u64 > IMAGE_LIMIT {
        return;
    }
    match model_of(text.allocator(), meaning, before) {
        Ok(before) => push_difference(text, meaning, &before, after),
        Err(fault) => keep_fault(text, fault),
    }
}
