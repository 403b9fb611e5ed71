// What things are called.
use dsr_answers::{pool_name, symbol_name};
use dsr_ir::{Binding, Element, Spec, Symbol};
use dsr_wording::Text;

/// Appends the name of a set.
pub fn push_set_name(text: &mut Text, spec: &Spec, set: u32) {
    text.name(symbol_name(spec, Symbol::Set(set)));
}

/// Appends the name of a relation.
pub fn push_rel_name(text: &mut Text, spec: &Spec, rel: u32) {
    text.name(symbol_name(spec, Symbol::Rel(rel)));
}

/// Appends what a record is called.
pub fn push_element(text: &mut Text, spec: &Spec, elem: Element) {
    text.name(pool_name(spec, elem.pool));
    if elem.pool != 0 {
        text.push("[");
        text.number(u64::from(elem.slot));
        text.push("]");
    }
}

/// Appends what a binding is called.
pub fn push_binding(text: &mut Text, spec: &Spec, binding: &Binding) {
    match *binding {
        Binding::Once => {}
        Binding::Each(elem) => push_element(text, spec, elem),
        Binding::Pair(first, second) => {
            text.push("<");
            push_element(text, spec, first);
            text.push(", ");
            push_element(text, spec, second);
            text.push(">");
        }
    }
}
