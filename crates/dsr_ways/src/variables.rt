// The names of variables.
use dsr_show::Variables;
use dsr_tree::{Binder, Tree};
use dsr_wording::text_of;

/// The variables of the constraint with this number.
pub fn variables_of(tree: &Tree, number: u32) -> Variables<'_> {
    let none = Variables::Named("", "");
    let Some(constraint) = tree.constraints.items().get(number as usize) else {
        return none;
    };
    let Some(quantifier) = &constraint.quantifier else {
        return none;
    };
    match &quantifier.binder {
        Binder::One(name) => Variables::Named(text_of(name.name.bytes()), ""),
        Binder::Pair {
            place: _,
            first,
            second,
        } => Variables::Named(text_of(first.name.bytes()), text_of(second.name.bytes())),
    }
}
