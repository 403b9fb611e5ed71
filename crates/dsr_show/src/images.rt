// An image with what a specification says of it.
ghost use Rattle.std.specs.Prelude.{◌≡◌, ◌≤◌, IfOk, length, true};
ghost use Rattle.dsr_fixpoint.specs.Models.{IsLaidOut, IsModelOf};
ghost use Rattle.dsr_meaning.specs.Limits.{most_bytes, most_constraints};
ghost use Rattle.dsr_meaning.specs.Typed.{IsTyped};

use dsr_fixpoint::rebuild;
use dsr_image::Whole;
use dsr_ir::{Layout, NoMemory, Spec};
use dsr_layout::{LayoutFault, layout};
use dsr_model::Model;
use dsr_resolve::ResolvedRules;
use std::alloc::Global;

/// An image, its layout under a specification, and its model.
#[derive(Drop)]
pub struct ImageModel<'a> {
    pub spec: &'a Spec,
    pub layout: Layout,
    pub bytes: Vec<u8>,
    pub model: Model,
    ghost few: { length spec.now.constraints ≤ most_constraints },
    ghost ordered: { model.ordered ≡ true },
}

// The model of an image with a layout.
fn with_layout<'a>(
    alloc: Global,
    spec: &'a Spec,
    layout: Layout,
    bytes: Vec<u8>,
) -> Result<ImageModel<'a>, NoMemory>
    requires laid_out { IsLaidOut spec.now layout bytes.items }
    requires few { length spec.now.constraints ≤ most_constraints }
    ensures model { IfOk result (λ image.
        IsModelOf spec.now image.layout image.bytes.items image.model) }
    ensures bytes { IfOk result (λ image. image.bytes.items ≡ bytes.items) }
{
    let mut model = Model::prepare(alloc, spec, &layout)?;
    let rules = ResolvedRules::new(alloc, spec, &layout)?;
    let image = Whole::new(bytes);
    rebuild(&mut model, spec, &layout, &rules, &image);
    Ok(ImageModel {
        spec,
        layout,
        bytes: image.into_bytes(),
        model,
    })
}

/// What a specification says of the bytes of an image, or why the image has no layout.
pub fn image_model<'a>(
    alloc: Global,
    spec: &'a Spec,
    bytes: Vec<u8>,
) -> Result<ImageModel<'a>, LayoutFault>
    requires typed { IsTyped spec.now }
    requires small { length bytes.items ≤ most_bytes }
    ensures model { IfOk result (λ image.
        IsModelOf spec.now image.layout image.bytes.items image.model) }
    ensures bytes { IfOk result (λ image. image.bytes.items ≡ bytes.items) }
{
    let layout = layout(alloc, spec, &bytes)?;
    Ok(with_layout(alloc, spec, layout, bytes)?)
}
