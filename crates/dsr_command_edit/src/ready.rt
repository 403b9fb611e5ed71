// An image that may be edited.
ghost use Rattle.std.specs.Prelude.{◌≡◌};
ghost use Rattle.dsr_edit.specs.Sessions.{IsPaused};

use dsr_edit::Paused;
use dsr_ir::{Layout, Spec};
use std::marker::Model;

/// A specification with an image that is consistent by it.
#[derive(Drop)]
pub struct Ready {
    pub(crate) spec: Spec,
    pub(crate) layout: Layout,
    pub(crate) paused: Paused,
}

impl Model for Ready {
    ghost use Rattle.std.specs.Coded.{codes};
    ghost use Rattle.std.specs.Prelude.{ℕ, List};
    ghost use Rattle.dsr_ir.specs.Exprs.{shape_code};
    ghost use Rattle.dsr_ir.specs.declared.declarations.Spec.{Spec as SpecOf};
    ghost use Rattle.dsr_edit.specs.Sessions.{IsPaused};

    ghost Value = { SpecOf × List ℕ };

    ghost coded = { Prim.hlevel (codes, shape_code) };

    ghost view = { λ r. (r.spec, r.paused.image) };

    ghost invariant = { λ r. IsPaused r.spec r.layout r.paused };
}

impl Ready {
    /// A specification with its layout of an image, and a session on it that was put aside.
    pub fn new(spec: Spec, layout: Layout, paused: Paused) -> Ready
        requires paused { IsPaused spec layout paused }
        ensures { result ≡ (spec, paused.image) }
    {
        Ready {
            spec,
            layout,
            paused,
        }
    }
}
