// What keeps the literals of a constraint from being made true, and what could be added.
use dsr_graph::{Graph, Position, falsifies, ways};
use dsr_ir::{Atom, Constraint, Literal, Measure, Op, Spec};
use dsr_show::{Variables, push_literal};
use dsr_wording::{Text, numbered};

const LEAVING: &str = "\
each rule that gives it needs a guard that can be made false, or a reference that can be set to none";

const SUPPLIED: &str = "\
it needs a supply, `fresh POOL avoid ..`, and a rule that gives the set or the relation from a \
reference of a known record";

const SOURCES: &str = "\
no record is made a source: say of the sources what leads to the record, as `size(x.RELATION) >= 1`";

const NUMBERS: &str = "of sizes `<= N`, `>= 1`, `= 0` and `= 1` can be made true, and no others";

const MEMBER: &str = "\
it needs a rule `x in .. => x in SET` without index, from a set of which the variable is known to \
be a member";

const PAIR: &str = "\
it needs a rule `.. => <x, x.FIELD> in RELATION` without index, that starts at a set of which the \
first variable is known to be a member";

const FIELD: &str =
    "it needs exactly one rule that gives the relation, from a field that isn't fixed";

// What the size of what is counted needs so that it becomes at least so much, or exactly so.
fn needs_of_size(measure: &Measure, op: Op, number: u64) -> &'static [&'static str] {
    if op == Op::Le || (op == Op::Eq && number == 0) {
        return &[LEAVING];
    }
    if number != 1 {
        return &[NUMBERS];
    }
    match measure {
        Measure::Into(_, _) => &[SOURCES],
        _ if op == Op::Eq => &[SUPPLIED, LEAVING],
        _ => &[SUPPLIED],
    }
}

// What a value needs so that it is set.
fn needs_of_value(op: Op) -> &'static [&'static str] {
    match op {
        Op::Eq | Op::Le | Op::Ge => &[FIELD],
        _ => &["values are set for `=`, `<=` and `>=` alone"],
    }
}

// What a literal needs so that something is tried for it.
fn needs_of(literal: &Literal) -> &'static [&'static str] {
    if literal.given {
        return &["it is `given`, and so only tested"];
    }
    match &literal.atom {
        Atom::Member(_, _) | Atom::Pair(_, _, _) if literal.negated => &[LEAVING],
        Atom::Member(_, _) => &[MEMBER],
        Atom::Pair(_, _, _) => &[PAIR],
        Atom::Count(measure, op, number) => needs_of_size(measure, *op, *number),
        Atom::Value(_, _, op, _) => needs_of_value(*op),
    }
}

// Whether each template of a literal may make another literal of its conjunction false.
fn all_falsify(graph: &Graph, at: Position) -> bool {
    for (way, _template) in ways(graph, at).iter().enumerate() {
        if falsifies(graph, at, numbered(way)).is_none() {
            return false;
        }
    }
    true
}

// What keeps a literal from being made true; nothing where a way is left.
fn hindrances(graph: &Graph, at: Position, literal: &Literal) -> &'static [&'static str] {
    if ways(graph, at).is_empty() {
        needs_of(literal)
    } else if all_falsify(graph, at) {
        &["each way may make another literal of its conjunction false"]
    } else {
        &[]
    }
}

// Appends what keeps a literal from being made true, if anything does.
fn push_need(
    text: &mut Text,
    spec: &Spec,
    variables: Variables<'_>,
    literal: &Literal,
    hindrances: &[&str],
) {
    if hindrances.is_empty() {
        return;
    }
    text.push("    nothing makes `");
    push_literal(text, spec, variables, literal);
    for (place, hindrance) in hindrances.iter().enumerate() {
        text.push(if place == 0 { "` true: " } else { ", and " });
        text.push(hindrance);
    }
    text.push("\n");
}

/// Appends the literals of a constraint that can't be made true, each with what keeps it from that.
pub fn push_needs(
    text: &mut Text,
    spec: &Spec,
    graph: &Graph,
    variables: Variables<'_>,
    number: u32,
    constraint: &Constraint,
) {
    for (conj, literals) in constraint.conjs.items().iter().enumerate() {
        for (place, literal) in literals.literals.items().iter().enumerate() {
            let at = Position {
                constraint: number,
                conj: numbered(conj),
                literal: numbered(place),
            };
            let hindrances = hindrances(graph, at, literal);
            push_need(text, spec, variables, literal, hindrances);
        }
    }
}
