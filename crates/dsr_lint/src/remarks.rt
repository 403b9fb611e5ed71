// What is said of a whole specification.
use crate::fields::push_fields;
use crate::supplies::push_supplies;
use crate::uses::{is_base_or_avoided, is_constrained, is_given, is_premise};
use dsr_ir::{SetDecl, Spec, Symbol};
use dsr_wording::{Text, numbered};

// Appends a line on a set or a relation: what it is, its name, and what is said of it.
fn push_remark(text: &mut Text, what: &str, name: &[u8], remark: &str) {
    text.push(what);
    text.name(name);
    text.push(remark);
}

// Appends what is to be said of a set that no rule fills.
fn push_empty(text: &mut Text, name: &[u8], starts: bool) {
    push_remark(
        text,
        "set ",
        name,
        ": no rule gives it a member, so it is empty\n",
    );
    if starts {
        push_remark(
            text,
            "set ",
            name,
            ": rules start from it, and never fire\n",
        );
    }
}

const UNUSED: &str = ": no constraint speaks of it, and no rule starts from it\n";

// Appends what is to be said of a set.
fn push_set(text: &mut Text, spec: &Spec, number: u32, set: &SetDecl) {
    let name = set.name.bytes();
    let (symbol, starts) = (Symbol::Set(number), is_premise(spec, number));
    if set.except.is_none() && !is_given(spec, symbol) {
        push_empty(text, name, starts);
    }
    if !starts && !is_constrained(spec, symbol) && !is_base_or_avoided(spec, number) {
        push_remark(text, "set ", name, UNUSED);
    }
}

// Appends what is to be said of the sets.
fn push_sets(text: &mut Text, spec: &Spec) {
    for (number, set) in spec.base.sets.items().iter().enumerate() {
        push_set(text, spec, numbered(number), set);
    }
}

const NO_PAIR: &str = ": no rule gives it a pair, so every bound on it holds\n";

// Appends what is to be said of the relations.
fn push_relations(text: &mut Text, spec: &Spec) {
    for (number, rel) in spec.base.rels.items().iter().enumerate() {
        let (symbol, name) = (Symbol::Rel(numbered(number)), rel.name.bytes());
        if !is_given(spec, symbol) {
            push_remark(text, "relation ", name, NO_PAIR);
        }
        if !is_constrained(spec, symbol) {
            push_remark(text, "relation ", name, ": no constraint speaks of it\n");
        }
    }
}

/// Appends what a specification says nothing about, a line each: sets, relations, fields, supplies,
/// in order of declaration; nothing where there is nothing to say.
pub fn push_lint(text: &mut Text, spec: &Spec) {
    push_sets(text, spec);
    push_relations(text, spec);
    push_fields(text, spec);
    push_supplies(text, spec);
}
