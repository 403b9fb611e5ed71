// The answer about an image.
ghost use Rattle.std.specs.Prelude.{◌≤◌, IfOk, length, map};
ghost use Rattle.dsr_command_image.specs.Checked.{IsCheckAnswer};
ghost use Rattle.dsr_fixpoint.specs.Models.{IsLaidOut};
ghost use Rattle.dsr_meaning.specs.Consistency.{AreViolations};
ghost use Rattle.dsr_meaning.specs.Models.{IsFact};
ghost use Rattle.dsr_meaning.specs.Typed.{IsTyped};
ghost use Rattle.dsr_script.specs.Moves.{shown};
ghost use Rattle.dsr_meaning.specs.Consistency.{bound_constraint};
ghost use Rattle.dsr_meaning.specs.Limits.{most_bytes};

use dsr_answers::{layout_refused, verdict};
use dsr_fixpoint::rebuild;
use dsr_image::Whole;
use dsr_ir::{Binding, Layout, NoMemory, Spec};
use dsr_layout::layout;
use dsr_model::Model;
use dsr_resolve::ResolvedRules;
use dsr_script::Told;
use dsr_truth::violations;
use std::alloc::Global;

/// The violated bindings of an image that has a layout.
pub fn violations_of(
    alloc: Global,
    spec: &Spec,
    layout: &Layout,
    image: &Whole,
) -> Result<Vec<(u32, Binding)>, NoMemory>
    requires { IsLaidOut spec.now layout.now image.now }
    ensures { IfOk result (λ vs. AreViolations (IsFact spec.now layout.now image.now) spec.now
        (map bound_constraint vs.items)) }
{
    let mut model = Model::prepare(alloc, spec, layout)?;
    let rules = ResolvedRules::new(alloc, spec, layout)?;
    rebuild(&mut model, spec, layout, &rules, image);
    violations(alloc, &model, spec)
}

/// The answer about the bytes of an image: why they have no layout, or the violated bindings.
pub fn check(alloc: Global, spec: &Spec, image: Vec<u8>) -> Result<Told, NoMemory>
    requires typed { IsTyped spec.now }
    requires small { length image.items ≤ most_bytes }
    ensures { IfOk result (λ told. IsCheckAnswer spec.now image.items (shown told)) }
{
    let layout = match layout(alloc, spec, &image) {
        Ok(layout) => layout,
        Err(fault) => return layout_refused(alloc, spec, fault),
    };
    let image = Whole::new(image);
    let found = violations_of(alloc, spec, &layout, &image)?;
    verdict(alloc, spec, &found)
}
