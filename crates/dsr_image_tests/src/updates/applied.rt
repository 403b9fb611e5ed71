// Steps on images.
ghost use Rattle.dsr_meaning.specs.Typed.{IsTyped};

use crate::updates::checks::{are_free, can_be_fresh, can_write_all};
use anyhow::bail;
use dsr_image::Whole;
use dsr_ir::{Spec, Template};
use dsr_layout::layout;
use dsr_log::Log;
use dsr_meaning::typed_specifications_are_placeable;
use dsr_repair::{Draft, make};
use dsr_step_theory::Step;
use std::alloc::Global;

/// What the step leaves of the bytes.
pub fn applied(
    alloc: Global,
    spec: &Spec,
    template: &Template,
    step: &Step,
    bytes: Vec<u8>,
) -> anyhow::Result<Vec<u8>>
    requires typed { IsTyped spec.now }
{
    typed_specifications_are_placeable();
    if bytes.len() > 67_108_864 {
        bail!("a long image");
    }
    let Ok(layout) = layout(alloc, spec, &bytes) else {
        bail!("no layout");
    };
    let Some(update) = template.updates.items().get(step.update as usize) else {
        bail!("no such update");
    };
    if !can_write_all(spec, &layout, step, update.writes.items()) {
        bail!("a write that can't be made");
    }
    if !are_free(spec, update.writes.items()) {
        bail!("a write to a fixed field");
    }
    if !can_be_fresh(&layout, step.fresh) {
        bail!("no such fresh record");
    }
    let mut image = Whole::new(bytes);
    let (mut draft, mut log) = (Draft::new(alloc), Log::new(alloc));
    let Ok(()) = make(
        spec, &layout, step, update, &mut image, &mut draft, &mut log,
    ) else {
        bail!("no memory");
    };
    Ok(image.into_bytes())
}
