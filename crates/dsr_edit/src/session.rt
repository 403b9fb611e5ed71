// An image that is edited and stays consistent.
ghost use Rattle.std.specs.Prelude.{◌≡◌, nat_eq, length, Decides, IfErr, IfOk};
ghost use Rattle.dsr_edit.specs.Edits.{IsEditFault, IsEdited, MayWriteSome};
ghost use Rattle.dsr_edit.specs.Opened.{IsOpenFault};
ghost use Rattle.dsr_edit.specs.Sessions.{IsPaused};
ghost use Rattle.dsr_meaning.specs.Consistency.{IsConsistent};
ghost use Rattle.dsr_step_theory.specs.Images.{IsImageOf};

use crate::cells::can_write;
use crate::faults::{EditFault, OpenFault};
use crate::groups::CellWrite;
use crate::making::edit_group;
use crate::puts::copied;
use dsr_fixpoint::rebuild;
use dsr_image::Whole;
use dsr_ir::{Binding, Layout, NoMemory, Spec};
use dsr_model::Model;
use dsr_resolve::ResolvedRules;
use dsr_truth::violations;
use std::alloc::Global;
use std::marker;

// Whether nothing is found.
fn is_none(found: &[(u32, Binding)]) -> bool
    ensures { result ≡ nat_eq (length found.now) 0 }
{
    found.is_empty()
}

/// A session that is put aside: all that it has beside its specification and layout.
#[derive(Drop)]
pub struct Paused {
    /// The rules, resolved for the layout.
    pub rules: ResolvedRules,
    /// The image.
    pub image: Whole,
    /// The model of the image.
    pub model: Model,
}

/// An image that is consistent under a specification and its layout, and stays so whatever is edited.
#[derive(Drop)]
pub struct Session<'a> {
    spec: &'a Spec,
    layout: &'a Layout,
    rules: ResolvedRules,
    image: Whole,
    /// The model of the image.
    model: Model,
}

impl<'a> marker::Model for Session<'a> {
    ghost use Rattle.std.specs.Coded.{codes};
    ghost use Rattle.std.specs.Prelude.{ℕ, List};
    ghost use Rattle.dsr_ir.specs.Exprs.{shape_code};
    ghost use Rattle.dsr_ir.specs.declared.declarations.Spec.{Spec as SpecOf};
    ghost use Rattle.dsr_ir.specs.declared.layouts.Layout.{Layout as LayoutOf};
    ghost use Rattle.dsr_edit.specs.Sessions.{IsSession};

    ghost Value = { SpecOf × LayoutOf × List ℕ };

    ghost coded = { Prim.hlevel (codes, shape_code) };

    ghost view = { λ s. (s.spec.now, s.layout.now, s.image) };

    ghost invariant = { λ s. IsSession s.spec.now s.layout.now s.rules s.image s.model };
}

impl<'a> Session<'a> {
    /// A session on an image of which this is the layout. After a refusal the image is given up.
    pub fn begin(
        alloc: Global,
        spec: &'a Spec,
        layout: &'a Layout,
        image: Whole,
    ) -> Result<Session<'a>, OpenFault>
        requires image { IsImageOf spec.now layout.now image }
        ensures begun { IfOk result (λ session. session ≡ (spec.now, layout.now, image)) }
        ensures consistent { IfOk result (λ _. IsConsistent spec.now layout.now image) }
        ensures refused { IfErr result (IsOpenFault spec.now layout.now image) }
    {
        let rules = ResolvedRules::new(alloc, spec, layout)?;
        let mut model = Model::prepare(alloc, spec, layout)?;
        rebuild(&mut model, spec, layout, &rules, &image);
        let found = violations(alloc, &model, spec)?;
        if !is_none(&found) {
            return Err(OpenFault::Violated(found));
        }
        Ok(Session {
            spec,
            layout,
            rules,
            image,
            model,
        })
    }

    /// Puts the session aside, so that its specification and layout are free.
    pub fn pause(self) -> Paused
        ensures paused { IsPaused self.entry.0 self.entry.1 result }
        ensures bytes { result.image ≡ self.entry.2 }
    {
        Paused {
            rules: self.rules,
            image: self.image,
            model: self.model,
        }
    }

    /// Goes on with a session of this specification and layout that was put aside.
    pub fn resume(spec: &'a Spec, layout: &'a Layout, paused: Paused) -> Session<'a>
        requires paused { IsPaused spec.now layout.now paused }
        ensures { result ≡ (spec.now, layout.now, paused.image) }
    {
        Session {
            spec,
            layout,
            rules: paused.rules,
            image: paused.image,
            model: paused.model,
        }
    }

    /// Whether a write names a cell of a field that isn't fixed, and its value fits.
    pub fn may_write(&self, write: &CellWrite) -> bool
        ensures { Decides result (MayWriteSome self.now.0 self.now.1 write.now) }
    {
        can_write(self.spec, self.layout, write)
    }

    /// Makes the writes of a group, in order, where each of them can be made and the image is consistent
    /// after all of them. Otherwise the image is as before. The memory that the group needs is taken
    /// before its first write.
    pub fn edit(&mut self, alloc: Global, group: &[CellWrite]) -> Result<(), EditFault>
        ensures spec { self.new.0 ≡ self.old.0 }
        ensures layout { self.new.1 ≡ self.old.1 }
        ensures edited { IfOk result (λ _. IsEdited self.old.0 self.old.1 group.now self.old.2 self.new.2) }
        ensures kept { IfErr result (λ _. self.new.2 ≡ self.old.2) }
        ensures refused { IfErr result (IsEditFault self.old.0 self.old.1 group.now self.old.2) }
    {
        edit_group(
            alloc,
            self.spec,
            self.layout,
            &self.rules,
            &mut self.image,
            &mut self.model,
            group,
        )
    }

    /// A copy of the bytes of the image.
    pub fn bytes(&self, alloc: Global) -> Result<Vec<u8>, NoMemory>
        ensures { IfOk result (λ bytes. bytes.items ≡ self.now.2) }
    {
        copied(alloc, &self.image)
    }

    /// The bytes of the image.
    pub fn into_bytes(self) -> Vec<u8>
        ensures bytes { result.items ≡ self.entry.2 }
        ensures consistent { IsConsistent self.entry.0 self.entry.1 self.entry.2 }
    {
        self.image.into_bytes()
    }
}
