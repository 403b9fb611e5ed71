// The values on which the truth of literals rests.
ghost use Rattle.std.specs.Prelude.{◌↔◌, IfSome, IsTrue};
ghost use Rattle.dsr_meaning.specs.Truth.{HasSize, HasVariable};
ghost use Rattle.dsr_model.specs.Facts.{IsInModel};

use crate::images::ImageModel;
use crate::listing::{Which, push_members, push_records};
use crate::literals::{Variables, push_measure, push_path};
use crate::names::{push_element, push_rel_name};
use crate::pairs::push_given;
use dsr_ir::{Atom, Binding, Bound, Element, Literal, Measure, Rel, Var};
use dsr_schema::element_of;
use dsr_wording::Text;

// The declaration of a relation.
fn declared<'a>(image: &'a ImageModel<'_>, rel: u32) -> Option<&'a Rel> {
    image.spec.base.rels.items().get(rel as usize)
}

// Whether a binding has the variable of a size.
fn has_variable(binding: &Binding, measure: &Measure) -> bool
    ensures { IsTrue result ↔ HasVariable binding.now measure.now }
{
    match *measure {
        Measure::Whole(_) => true,
        Measure::Out(var, _) => element_of(binding, var).is_some(),
        Measure::Into(_, var) => element_of(binding, var).is_some(),
    }
}

// How many are counted; none where the binding hasn't got the variable.
fn size_of(image: &ImageModel<'_>, binding: &Binding, measure: &Measure) -> Option<u64>
    ensures { IfSome result (HasSize (IsInModel image.now.model) binding.now measure.now) }
{
    if has_variable(binding, measure) {
        Some(image.model.size(measure, binding))
    } else {
        None
    }
}

// Appends the records to which a relation leads from one, or the numbers that it gives it; nothing
// where there is no such relation.
fn push_out(text: &mut Text, image: &ImageModel<'_>, rel: u32, source: Element) -> u64 {
    match declared(image, rel) {
        Some(rel_declared) => push_given(text, image, rel, rel_declared, source),
        None => 0,
    }
}

// Appends the records from which a relation leads to one.
fn push_into(text: &mut Text, image: &ImageModel<'_>, rel: u32, target: Element) {
    if let Some(rel_declared) = declared(image, rel) {
        let which = Which::Sources(rel, target);
        let _listed = push_records(text, image, which, rel_declared.source);
    }
}

// Appends what is counted.
fn push_counted(text: &mut Text, image: &ImageModel<'_>, binding: &Binding, measure: &Measure) {
    match *measure {
        Measure::Whole(set) => push_members(text, image, set),
        Measure::Out(var, rel) => {
            if let Some(source) = element_of(binding, var) {
                let _listed = push_out(text, image, rel, source);
            }
        }
        Measure::Into(rel, var) => {
            if let Some(target) = element_of(binding, var) {
                push_into(text, image, rel, target);
            }
        }
    }
}

// Appends a size with its number, and what is counted, behind a lead.
fn push_size_value(
    text: &mut Text,
    lead: &str,
    image: &ImageModel<'_>,
    binding: &Binding,
    measure: &Measure,
) {
    let Some(size) = size_of(image, binding, measure) else {
        return;
    };
    text.push(lead);
    push_measure(text, image.spec, Variables::Bound(binding), measure);
    text.push(" is ");
    text.number(size);
    if size > 0 {
        text.push(": ");
        push_counted(text, image, binding, measure);
    }
}

// Appends what a relation gives to a record, or that this is nothing.
fn push_all_out(text: &mut Text, image: &ImageModel<'_>, rel: u32, source: Element) {
    if push_out(text, image, rel, source) == 0 {
        text.push("nothing");
    }
}

// Appends the values that a relation gives to a variable, behind a lead.
fn push_value_of(
    text: &mut Text,
    lead: &str,
    image: &ImageModel<'_>,
    binding: &Binding,
    var: Var,
    rel: u32,
) {
    if let Some(source) = element_of(binding, var) {
        text.push(lead);
        push_path(text, image.spec, Variables::Bound(binding), var, rel);
        text.push(" is ");
        push_all_out(text, image, rel, source);
    }
}

// Appends the records to which a relation leads from one.
fn push_targets(text: &mut Text, image: &ImageModel<'_>, source: Element, rel: u32) {
    push_rel_name(text, image.spec, rel);
    text.push(" leads from ");
    push_element(text, image.spec, source);
    text.push(" to ");
    push_all_out(text, image, rel, source);
}

// Appends the records to which a pair's relation leads, behind a lead.
fn push_pair_values(
    text: &mut Text,
    lead: &str,
    image: &ImageModel<'_>,
    binding: &Binding,
    var: Var,
    rel: u32,
) {
    if let Some(source) = element_of(binding, var) {
        text.push(lead);
        push_targets(text, image, source, rel);
    }
}

/// Appends the values on which the truth of a literal rests, behind a lead; nothing at all where
/// there are none.
pub fn push_values_behind(
    text: &mut Text,
    lead: &str,
    image: &ImageModel<'_>,
    binding: &Binding,
    literal: &Literal,
) {
    match &literal.atom {
        Atom::Member(_, _) => {}
        Atom::Pair(first, _, rel) => push_pair_values(text, lead, image, binding, *first, *rel),
        Atom::Count(measure, _, _) => push_size_value(text, lead, image, binding, measure),
        Atom::Value(var, rel, _, bound) => {
            push_value_of(text, lead, image, binding, *var, *rel);
            if let Bound::Size(measure) = bound {
                push_size_value(text, "; ", image, binding, measure);
            }
        }
    }
}
