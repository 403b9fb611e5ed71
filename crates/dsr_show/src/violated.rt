// A violated binding of a constraint, with the truth of each literal.
use crate::atoms::push_values_behind;
use crate::images::ImageModel;
use crate::literals::{Variables, push_literal};
use crate::names::push_binding;
use dsr_ir::{Binding, Conj, Literal};
use dsr_truth::literal as is_true;
use dsr_wording::Text;

// Appends a literal, whether it is true, and on which values that rests.
fn push_truth(text: &mut Text, image: &ImageModel<'_>, binding: &Binding, literal: &Literal) {
    text.push(if is_true(&image.model, literal, binding) {
        "    true:  "
    } else {
        "    false: "
    });
    push_literal(text, image.spec, Variables::Bound(binding), literal);
    push_values_behind(text, "; ", image, binding, literal);
    text.push("\n");
}

// Appends the literals of a conjunction.
fn push_conj(text: &mut Text, image: &ImageModel<'_>, binding: &Binding, conj: &Conj) {
    for literal in conj.literals.items() {
        push_truth(text, image, binding, literal);
    }
}

// Appends where a constraint is violated; nothing where it has no quantifier.
fn push_place(text: &mut Text, image: &ImageModel<'_>, binding: &Binding) {
    if *binding != Binding::Once {
        text.push("  at ");
        push_binding(text, image.spec, binding);
        text.push("\n");
    }
}

/// Appends what is violated where, with each literal of the constraint.
pub fn push_violation(text: &mut Text, image: &ImageModel<'_>, constraint: u32, binding: &Binding) {
    let Some(declared) = image.spec.constraints.items().get(constraint as usize) else {
        return;
    };
    push_place(text, image, binding);
    for (number, conj) in declared.conjs.items().iter().enumerate() {
        text.push(if number > 0 { "    or\n" } else { "" });
        push_conj(text, image, binding, conj);
    }
}
