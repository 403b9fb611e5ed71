// Which constraints are violated, with values.
use crate::reading::Meaning;
use crate::sources::{constraint_source, push_words};
use dsr_ir::Binding;
use dsr_show::{ImageModel, push_violation};
use dsr_truth::violations;
use dsr_wording::Text;

// How many violated bindings are told.
const TOLD: usize = 10;

// Appends the source of a constraint.
fn push_source(text: &mut Text, meaning: &Meaning, constraint: u32) {
    let (line, words) = constraint_source(&meaning.text, &meaning.tree, constraint);
    text.push("line ");
    text.number(line as u64);
    text.push(": ");
    push_words(text, words);
    text.push("\n");
}

// Appends the first violated bindings, those of one constraint below its source.
fn push_first(
    text: &mut Text,
    image: &ImageModel<'_>,
    meaning: &Meaning,
    found: &[(u32, Binding)],
) {
    let mut last = None;
    for (constraint, binding) in found.get(..TOLD).unwrap_or(found) {
        if last != Some(*constraint) {
            push_source(text, meaning, *constraint);
        }
        last = Some(*constraint);
        push_violation(text, image, *constraint, binding);
    }
}

// Appends how many more violated bindings there are than the first ones.
fn push_more(text: &mut Text, found: usize) {
    if found > TOLD {
        text.push("and ");
        text.number(found.saturating_sub(TOLD) as u64);
        text.push(" more\n");
    }
}

/// Appends which constraints are violated: the source of each, the records, and the truth of each
/// literal with its values. Of many the first ones are told, and then how many more there are.
pub fn violations_told(text: &mut Text, image: &ImageModel<'_>, meaning: &Meaning) {
    match violations(text.allocator(), &image.model, image.spec) {
        Ok(found) => {
            push_first(text, image, meaning, &found);
            push_more(text, found.len());
        }
        Err(_) => text.cut(),
    }
}
