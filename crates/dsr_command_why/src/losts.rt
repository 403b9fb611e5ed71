// Records that no set has.
ghost use Rattle.std.specs.Prelude.{◌≡◌, ◌≤◌, ◌++◌, IfOk, OnOk, length};
ghost use Rattle.std.specs.List.{flat_map};
ghost use Rattle.dsr_command_why.specs.Losts.{IsLostAnswer, lost_answer, lost_line};
ghost use Rattle.dsr_lost.specs.Lost.{AreLost};
ghost use Rattle.dsr_meaning.specs.Legal.{IsLegalLayout};
ghost use Rattle.dsr_meaning.specs.Limits.{most_bytes};
ghost use Rattle.dsr_meaning.specs.Typed.{IsTyped};
ghost use Rattle.dsr_script.specs.Moves.{shown};
ghost use Rattle.dsr_step_theory.specs.Images.{IsImageOf};

use crate::images::laid_out;
use dsr_answers::{layout_refused, push, push_element, push_number};
use dsr_fixpoint::rebuild;
use dsr_image::Whole;
use dsr_ir::{Element, Layout, NoMemory, Spec};
use dsr_model::Model;
use dsr_resolve::ResolvedRules;
use dsr_script::{Told, Verdict};
use std::alloc::Global;

// The lost records of an image that has a layout.
fn lost_in(
    alloc: Global,
    spec: &Spec,
    layout: &Layout,
    image: &Whole,
) -> Result<Vec<Element>, NoMemory>
    requires image { IsImageOf spec.now layout.now image.now }
    requires legal { IsLegalLayout layout.now }
    ensures { IfOk result (λ es. AreLost spec.now layout.now image.now es.items) }
{
    let mut model = Model::prepare(alloc, spec, layout)?;
    let rules = ResolvedRules::new(alloc, spec, layout)?;
    rebuild(&mut model, spec, layout, &rules, image);
    dsr_lost::lost(alloc, &model, spec, layout, image)
}

// Appends the line of a lost record.
fn push_lost(text: &mut Vec<u8>, spec: &Spec, elem: Element) -> Result<(), NoMemory>
    ensures { OnOk result (text.new.items ≡ text.old.items ++ lost_line spec.now elem) }
{
    push(text, b"lost ")?;
    push_element(text, spec, elem)?;
    push(text, b"\n")
}

// The answer that these records are lost.
fn lost_told(alloc: Global, spec: &Spec, lost: &[Element]) -> Result<Told, NoMemory>
    ensures { IfOk result (λ told. shown told ≡ lost_answer spec.now lost.now) }
{
    let mut text = Vec::new(alloc);
    for elem in lost {
        push_lost(&mut text, spec, *elem)?;
    }
    push(&mut text, b"lost ")?;
    push_number(&mut text, lost.len() as u64)?;
    push(&mut text, b"\n")?;
    Ok(Told {
        verdict: Verdict::Ok,
        text,
    })
}

/// The answer which records of an image are members of no set but of complements: the image has no
/// layout; or a line for each of them, in order of pools and slots, and their number.
pub fn lost(alloc: Global, spec: &Spec, image: Vec<u8>) -> Result<Told, NoMemory>
    requires typed { IsTyped spec.now }
    requires small { length image.items ≤ most_bytes }
    ensures { IfOk result (λ told. IsLostAnswer spec.now image.items (shown told)) }
{
    let layout = match laid_out(alloc, spec, &image) {
        Ok(layout) => layout,
        Err(fault) => return layout_refused(alloc, spec, fault),
    };
    let found = lost_in(alloc, spec, &layout, &Whole::new(image))?;
    lost_told(alloc, spec, &found)
}
