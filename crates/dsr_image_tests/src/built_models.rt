// The model of an image.
ghost use Rattle.std.specs.Prelude.{◌≡◌, true, IfSome};
ghost use Rattle.dsr_fixpoint.specs.Models.{IsLaidOut, IsModelOf, IsPreparedFor};
ghost use Rattle.dsr_given.specs.Shapes.{rule_shapes};
ghost use Rattle.dsr_meaning.specs.Legal.{IsLegalLayout};
ghost use Rattle.dsr_meaning.specs.Typed.{IsTyped};
ghost use Rattle.dsr_model.specs.Views.{IsLayoutFor};

use dsr_fixpoint::rebuild;
use dsr_image::Whole;
use dsr_ir::{Layout, Spec};
use dsr_layout::layout;
use dsr_meaning::typed_specifications_are_placeable;
use dsr_model::Model;
use dsr_resolve::ResolvedRules;
use std::alloc::Global;

/// An image with its layout and a model on it.
#[derive(Drop)]
pub struct Found {
    pub image: Whole,
    pub layout: Layout,
    pub model: Model,
}

/// An image with its layout, and a model in which nothing is given yet; none where the
/// specification has no layout on the image, or memory runs out.
pub fn prepared(alloc: Global, spec: &Spec, image: Vec<u8>) -> Option<Found>
    requires typed { IsTyped spec.now }
    ensures laid_out { IfSome result (λ found. IsLaidOut spec.now found.layout found.image) }
    ensures prepared { IfSome result (λ found. IsPreparedFor spec.now found.layout found.model) }
{
    typed_specifications_are_placeable();
    if image.len() > 67_108_864 {
        return None;
    }
    let Ok(layout) = layout(alloc, spec, &image) else {
        return None;
    };
    let Ok(model) = Model::prepare(alloc, spec, &layout) else {
        return None;
    };
    Some(Found {
        image: Whole::new(image),
        layout,
        model,
    })
}

/// The model of an image; none where the specification has no layout on it, or memory runs out.
pub fn model_of(alloc: Global, spec: &Spec, image: Vec<u8>) -> Option<Found>
    requires typed { IsTyped spec.now }
    ensures layout { IfSome result (λ found. IsLayoutFor spec.now found.layout) }
    ensures legal { IfSome result (λ found. IsLegalLayout found.layout) }
    ensures rules { IfSome result (λ found. found.model.given.rules ≡ rule_shapes spec.now found.layout) }
    ensures ordered { IfSome result (λ found. found.model.ordered ≡ true) }
    ensures model { IfSome result (λ found. IsModelOf spec.now found.layout found.image found.model) }
{
    let mut found = prepared(alloc, spec, image)?;
    let rules = ResolvedRules::new(alloc, spec, &found.layout).ok()?;
    rebuild(&mut found.model, spec, &found.layout, &rules, &found.image);
    Some(found)
}
