// Literals in the words of the specification.
use crate::names::{push_element, push_rel_name, push_set_name};
use dsr_ir::{Atom, Binding, Bound, Literal, Measure, Op, Spec, Var};
use dsr_schema::element_of;
use dsr_wording::{Text, sign_of};

/// What is told for the variables of a constraint.
#[derive(Clone, Copy)]
pub enum Variables<'a> {
    /// The names of the first and the second one.
    Named(&'a str, &'a str),
    /// The records for which a binding has them stand.
    Bound(&'a Binding),
}

/// Appends what is told for a variable.
pub fn push_var(text: &mut Text, spec: &Spec, variables: Variables<'_>, var: Var) {
    match variables {
        Variables::Named(first, second) => text.push(match var {
            Var::Head => "head",
            Var::First => first,
            Var::Second => second,
        }),
        Variables::Bound(binding) => {
            if let Some(elem) = element_of(binding, var) {
                push_element(text, spec, elem);
            }
        }
    }
}

/// Appends what a relation gives to a variable.
pub fn push_path(text: &mut Text, spec: &Spec, variables: Variables<'_>, var: Var, rel: u32) {
    push_var(text, spec, variables, var);
    text.push(".");
    push_rel_name(text, spec, rel);
}

/// Appends a size.
pub fn push_measure(text: &mut Text, spec: &Spec, variables: Variables<'_>, measure: &Measure) {
    text.push("size(");
    match *measure {
        Measure::Whole(set) => push_set_name(text, spec, set),
        Measure::Out(var, rel) => push_path(text, spec, variables, var, rel),
        Measure::Into(rel, var) => {
            push_rel_name(text, spec, rel);
            text.push(".");
            push_var(text, spec, variables, var);
        }
    }
    text.push(")");
}

// Appends what a value is compared with.
fn push_bound(text: &mut Text, spec: &Spec, variables: Variables<'_>, bound: &Bound) {
    match bound {
        Bound::Num(number) => text.number(*number),
        Bound::Size(measure) => push_measure(text, spec, variables, measure),
    }
}

// Appends a sign of comparison, between spaces.
fn push_sign(text: &mut Text, op: Op) {
    text.push(" ");
    text.push(sign_of(op));
    text.push(" ");
}

// Appends a pair of variables.
fn push_pair(text: &mut Text, spec: &Spec, variables: Variables<'_>, first: Var, second: Var) {
    text.push("<");
    push_var(text, spec, variables, first);
    text.push(", ");
    push_var(text, spec, variables, second);
    text.push("> in ");
}

fn push_atom(text: &mut Text, spec: &Spec, variables: Variables<'_>, atom: &Atom) {
    match atom {
        Atom::Member(var, set) => {
            push_var(text, spec, variables, *var);
            text.push(" in ");
            push_set_name(text, spec, *set);
        }
        Atom::Pair(first, second, rel) => {
            push_pair(text, spec, variables, *first, *second);
            push_rel_name(text, spec, *rel);
        }
        Atom::Count(measure, op, number) => {
            push_measure(text, spec, variables, measure);
            push_sign(text, *op);
            text.number(*number);
        }
        Atom::Value(var, rel, op, bound) => {
            push_path(text, spec, variables, *var, *rel);
            push_sign(text, *op);
            push_bound(text, spec, variables, bound);
        }
    }
}

/// Appends a literal.
pub fn push_literal(text: &mut Text, spec: &Spec, variables: Variables<'_>, literal: &Literal) {
    if literal.given {
        text.push("given ");
    }
    if literal.negated {
        text.push("not ");
    }
    push_atom(text, spec, variables, &literal.atom);
}
