// Writes that are put into their cells, and taken back, with the model of the image.
ghost use Rattle.std.specs.Prelude.{◌≡◌, ◌<◌, ◌^◌, ℕ, List, Some, true, IfOk, length, slice_get};
ghost use Rattle.dsr_edit.specs.Edits.{AreMade};
ghost use Rattle.dsr_edit.specs.Puts.{IsBetween, LeadsBack};
ghost use Rattle.dsr_edit.specs.Updates.{AreReady, IsReady, writes_of};
ghost use Rattle.dsr_step_theory.specs.Puts.{IsPut};

use crate::updates::{CellPut, step_of};
use dsr_fixpoint::{TouchedRules, patch, rebuild, shows_leaf};
use dsr_image::{ImageBytes, Whole};
use dsr_ir::{Layout, NoMemory, Spec};
use dsr_model::Model;
use dsr_resolve::ResolvedRules;
use std::alloc::Global;

// The write at a place.
fn put_at<'a>(puts: &'a [CellPut], place: usize) -> &'a CellPut
    requires { place < length puts.now }
    ensures { slice_get puts.now place ≡ Some result.now }
{
    &puts[place]
}

// The value at a place.
fn value_at(was: &[u64], place: usize) -> u64
    requires { place < length was.now }
    ensures { slice_get was.now place ≡ Some result }
{
    was[place]
}

// Puts a value into the cell of a write, and changes the model by what that touched, where no member
// of a premise came or went. Whether the model is that of the image then.
fn put_one(
    spec: &Spec,
    layout: &Layout,
    rules: &ResolvedRules,
    image: &mut Whole,
    model: &mut Model,
    changed: bool,
    put: &CellPut,
    value: u64,
) -> bool
    requires between { IsBetween spec.now layout.now rules.now image.old model.old changed }
    requires ready { IsReady spec.now layout.now put.now }
    requires fits { value < 2 ^ put.now.cell.width }
    ensures put { IsPut put.now.cell value image.old image.new }
    ensures between { IsBetween spec.now layout.now rules.now image.new model.new result }
{
    image.put(&put.cell, value);
    if !changed {
        return false;
    }
    let step = step_of(&put.write);
    let touched = TouchedRules::by(spec, &put.update);
    if !shows_leaf(
        model,
        spec,
        layout,
        rules,
        image,
        &put.update,
        &step,
        &touched,
    ) {
        return false;
    }
    patch(
        model,
        spec,
        layout,
        rules,
        image,
        &put.update,
        &step,
        &touched,
    );
    true
}

// Makes the model that of the image, where it isn't.
fn settle(
    spec: &Spec,
    layout: &Layout,
    rules: &ResolvedRules,
    image: &Whole,
    model: &mut Model,
    changed: bool,
)
    requires between { IsBetween spec.now layout.now rules.now image.now model.old changed }
    ensures between { IsBetween spec.now layout.now rules.now image.now model.new true }
{
    if !changed {
        rebuild(model, spec, layout, rules, image);
    }
}

/// Puts the values of writes into their cells, one after the other, and notes in `was` the values
/// that were there. The model is that of the image then: it is built anew only where it wasn't
/// changed with each of the writes.
pub fn put_noting(
    spec: &Spec,
    layout: &Layout,
    rules: &ResolvedRules,
    image: &mut Whole,
    model: &mut Model,
    puts: &[CellPut],
    was: &mut [u64],
)
    requires between { IsBetween spec.now layout.now rules.now image.old model.old true }
    requires ready { AreReady spec.now layout.now puts.now }
    requires room { length was.old ≡ length puts.now }
    ensures made { AreMade spec.now layout.now (writes_of puts.now) image.old image.new }
    ensures room { length was.new ≡ length puts.now }
    ensures back { LeadsBack puts.now was.new (length puts.now) image.new image.old }
    ensures between { IsBetween spec.now layout.now rules.now image.new model.new true }
{
    let mut changed = true;
    for place in 0..puts.len() {
        let put = put_at(puts, place);
        let noted = image.get(&put.cell);
        was[place] = noted;
        changed = put_one(
            spec,
            layout,
            rules,
            image,
            model,
            changed,
            put,
            put.write.value,
        );
    }
    settle(spec, layout, rules, image, model, changed);
}

/// Puts the values that were there into the cells of writes, the last one first. The model is that
/// of the image then.
pub fn put_back(
    spec: &Spec,
    layout: &Layout,
    rules: &ResolvedRules,
    image: &mut Whole,
    model: &mut Model,
    puts: &[CellPut],
    was: &[u64],
)
    requires between { IsBetween spec.now layout.now rules.now image.old model.old true }
    requires ready { AreReady spec.now layout.now puts.now }
    requires room { length was.now ≡ length puts.now }
    requires back { (first : List ℕ)
        × LeadsBack puts.now was.now (length puts.now) image.old first }
    ensures back { (first : List ℕ) → LeadsBack puts.now was.now (length puts.now) image.old first
        → image.new ≡ first }
    ensures between { IsBetween spec.now layout.now rules.now image.new model.new true }
{
    let mut changed = true;
    let mut place = puts.len();
    while place > 0 {
        place -= 1;
        let put = put_at(puts, place);
        let value = value_at(was, place);
        changed = put_one(spec, layout, rules, image, model, changed, put, value);
    }
    settle(spec, layout, rules, image, model, changed);
}

/// A copy of the bytes of an image.
pub fn copied(alloc: Global, image: &Whole) -> Result<Vec<u8>, NoMemory>
    ensures { IfOk result (λ bytes. bytes.items ≡ image.now) }
{
    let mut bytes = Vec::new(alloc);
    for at in 0..image.len() {
        bytes.push(image.byte(at))?;
    }
    Ok(bytes)
}
