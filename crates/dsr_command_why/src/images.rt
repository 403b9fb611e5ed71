// Images, laid out.
ghost use Rattle.std.specs.Prelude.{◌≤◌, IfErr, IfOk, length};
ghost use Rattle.dsr_layout.specs.Telling.{Tells};
ghost use Rattle.dsr_meaning.specs.Legal.{IsLegalLayout};
ghost use Rattle.dsr_meaning.specs.Limits.{most_bytes};
ghost use Rattle.dsr_meaning.specs.Refusals.{refusals};
ghost use Rattle.dsr_meaning.specs.Typed.{IsTyped};
ghost use Rattle.dsr_step_theory.specs.Images.{IsImageOf};

use dsr_ir::{Layout, Spec};
use dsr_layout::{LayoutFault, layout};
use std::alloc::Global;

/// The layout of a specification on an image. Where it is refused, the fault is the first of the
/// least kind, by order of declaration.
pub fn laid_out(alloc: Global, spec: &Spec, image: &[u8]) -> Result<Layout, LayoutFault>
    requires typed { IsTyped spec.now }
    requires small { length image.now ≤ most_bytes }
    ensures image { IfOk result (λ layout. IsImageOf spec.now layout image.now) }
    ensures legal { IfOk result IsLegalLayout }
    ensures refused { IfErr result (Tells (refusals spec.now image.now)) }
{
    layout(alloc, spec, image)
}
