// Records, the pairs of relations, and violations of an image, for Graphviz.
use crate::facts::fact_after;
use crate::images::ImageModel;
use crate::names::push_element;
use dsr_answers::constraint_name;
use dsr_ir::{Binding, Element, Fact, Symbol, Target};
use dsr_wording::{Text, numbered};

// How many facts of a symbol, and how many violations are drawn.
const DRAWN: usize = 1000;

// Appends a record, with what else is drawn of it.
fn push_node(text: &mut Text, image: &ImageModel<'_>, elem: Element, how: &str) {
    text.push("  \"");
    push_element(text, image.spec, elem);
    text.push("\"");
    text.push(how);
    text.push(";\n");
}

// Appends the beginning of an edge between records, up to its name.
fn push_edge(text: &mut Text, image: &ImageModel<'_>, first: Element, second: Element) {
    text.push("  \"");
    push_element(text, image.spec, first);
    text.push("\" -> \"");
    push_element(text, image.spec, second);
    text.push("\" [label=\"");
}

// Appends an edge to a record; numbers aren't drawn.
fn push_pair(
    text: &mut Text,
    image: &ImageModel<'_>,
    source: Element,
    target: Target,
    name: &[u8],
) {
    if let Target::Elem(target) = target {
        push_edge(text, image, source, target);
        text.name(name);
        text.push("\"];\n");
    }
}

// Appends a member or a pair.
fn push_fact(text: &mut Text, image: &ImageModel<'_>, fact: Fact, name: &[u8]) {
    match fact {
        Fact::Member(_, elem) => push_node(text, image, elem, ""),
        Fact::Pair(_, source, target) => push_pair(text, image, source, target, name),
    }
}

// Appends the facts of a symbol, the first ones where there are many.
fn push_facts(text: &mut Text, image: &ImageModel<'_>, symbol: Symbol, name: &[u8]) {
    let mut last = None;
    for _turn in 0..DRAWN {
        let Some(fact) = fact_after(image, symbol, last) else {
            return;
        };
        push_fact(text, image, fact, name);
        last = Some(fact);
    }
}

// The name of a violated constraint that has no records.
const VIOLATED: &str = "  \"{} is violated\" [shape=plaintext, fontcolor=red];\n";

// Appends the two records of a violation.
fn push_violated_pair(
    text: &mut Text,
    image: &ImageModel<'_>,
    first: Element,
    second: Element,
    name: &[u8],
) {
    push_edge(text, image, first, second);
    text.name(name);
    text.push("\", color=red, fontcolor=red];\n");
}

// Appends a violation: its records, or its constraint where it has none.
fn push_violated(text: &mut Text, image: &ImageModel<'_>, name: &[u8], binding: &Binding) {
    match *binding {
        Binding::Once => text.fill(VIOLATED, &[name]),
        Binding::Each(elem) => push_node(text, image, elem, " [color=red, fontcolor=red]"),
        Binding::Pair(first, second) => push_violated_pair(text, image, first, second, name),
    }
}

/// Appends the records that sets have, the pairs of relations between records, and in red what is
/// violated, for Graphviz; the first ones where there are many.
pub fn push_picture(text: &mut Text, image: &ImageModel<'_>, violated: &[(u32, Binding)]) {
    text.push("digraph image {\n  \"head\";\n");
    for (number, set) in image.spec.base.sets.items().iter().enumerate() {
        if set.except.is_none() {
            push_facts(text, image, Symbol::Set(numbered(number)), b"");
        }
    }
    for (number, rel) in image.spec.base.rels.items().iter().enumerate() {
        push_facts(text, image, Symbol::Rel(numbered(number)), rel.name.bytes());
    }
    for (constraint, binding) in violated.get(..DRAWN).unwrap_or(violated) {
        push_violated(
            text,
            image,
            constraint_name(image.spec, *constraint),
            binding,
        );
    }
    text.push("}\n");
}
