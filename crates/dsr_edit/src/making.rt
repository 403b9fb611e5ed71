// A group of writes that is made, or taken back.
ghost use Rattle.std.specs.Prelude.{◌≡◌, IfErr, IfOk, MatchOption};
ghost use Rattle.dsr_edit.specs.Edits.{IsBroken, IsEditFault, IsEdited};
ghost use Rattle.dsr_edit.specs.Prepared.{IsPreparedGroup};
ghost use Rattle.dsr_edit.specs.Sessions.{IsSession};
ghost use Rattle.dsr_meaning.specs.Consistency.{bound_constraint};

use crate::faults::EditFault;
use crate::groups::CellWrite;
use crate::preparing::{Prepared, prepare};
use crate::puts::{put_back, put_noting};
use crate::updates::CellPut;
use dsr_image::Whole;
use dsr_ir::{Binding, Layout, Spec};
use dsr_model::Model;
use dsr_resolve::ResolvedRules;
use dsr_truth::first_violated;
use std::alloc::Global;

// Makes the writes of a group, and takes them back where a constraint is violated then: the first one
// with the least of its violated bindings. The model is changed with each write, or built anew where
// some write made a member of a premise come or go.
fn make(
    spec: &Spec,
    layout: &Layout,
    rules: &ResolvedRules,
    image: &mut Whole,
    model: &mut Model,
    _group: &[CellWrite],
    prepared: Prepared,
) -> Option<(u32, Binding)>
    requires session { IsSession spec.now layout.now rules.now image.old model.old }
    requires prepared { IsPreparedGroup spec.now layout.now _group.now prepared }
    ensures session { IsSession spec.now layout.now rules.now image.new model.new }
    ensures outcome { MatchOption result
        (IsEdited spec.now layout.now _group.now image.old image.new)
        (λ v. IsBroken spec.now layout.now _group.now image.old (bound_constraint v)
        × (image.new ≡ image.old)) }
{
    let mut prepared = prepared;
    let was: &mut [u64] = &mut prepared.was;
    let puts: &[CellPut] = &prepared.puts;
    put_noting(spec, layout, rules, image, model, puts, was);
    match first_violated(model, spec, &prepared.order) {
        Some(found) => {
            put_back(spec, layout, rules, image, model, puts, was);
            Some(found)
        }
        None => None,
    }
}

/// Makes the writes of a group, where each of them can be made and the image is consistent after all
/// of them; otherwise the image is as before.
pub fn edit_group(
    alloc: Global,
    spec: &Spec,
    layout: &Layout,
    rules: &ResolvedRules,
    image: &mut Whole,
    model: &mut Model,
    group: &[CellWrite],
) -> Result<(), EditFault>
    requires session { IsSession spec.now layout.now rules.now image.old model.old }
    ensures session { IsSession spec.now layout.now rules.now image.new model.new }
    ensures edited { IfOk result (λ _. IsEdited spec.now layout.now group.now image.old image.new) }
    ensures kept { IfErr result (λ _. image.new ≡ image.old) }
    ensures refused { IfErr result (IsEditFault spec.now layout.now group.now image.old) }
{
    let prepared = match prepare(alloc, spec, layout, group) {
        Ok(prepared) => prepared,
        Err(fault) => return Err(fault),
    };
    match make(spec, layout, rules, image, model, group, prepared) {
        Some((constraint, binding)) => Err(EditFault::Broken(constraint, binding)),
        None => Ok(()),
    }
}
