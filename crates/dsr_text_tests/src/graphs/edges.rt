// What the graph tells of a constraint.
use dsr_graph::{Graph, Position, breaks, falsifies, relies, ways};
use dsr_graph_theory::Reason;
use dsr_ir::{Constraint, Name, Spec, Symbol};
use dsr_test_text::Lines;

// The name of the constraint with this number; `-` where there is none.
fn add_name(lines: &mut Lines, spec: &Spec, number: u32) {
    match spec.constraints.items().get(number as usize) {
        Some(constraint) => lines.name(&constraint.name),
        None => lines.word("-"),
    }
}

fn symbol_name(spec: &Spec, symbol: Symbol) -> Option<&Name> {
    match symbol {
        Symbol::Set(set) => Some(&spec.base.sets.items().get(set as usize)?.name),
        Symbol::Rel(rel) => Some(&spec.base.rels.items().get(rel as usize)?.name),
    }
}

fn add_reason(lines: &mut Lines, spec: &Spec, reason: Reason) {
    let symbol = match reason {
        Reason::Gain(symbol) => {
            lines.word(" by gain of ");
            symbol
        }
        Reason::Loss(symbol) => {
            lines.word(" by loss of ");
            symbol
        }
    };
    match symbol_name(spec, symbol) {
        Some(name) => lines.name(name),
        None => lines.word("-"),
    }
}

// The number as the graph has it; there are far fewer.
fn narrow(number: usize) -> u32 {
    u32::try_from(number).unwrap_or(u32::MAX)
}

fn add_broken(lines: &mut Lines, spec: &Spec, graph: &Graph, at: Position, way: u32, other: u32) {
    if let Some(reason) = breaks(graph, at, way, other) {
        lines.word("      breaks ");
        add_name(lines, spec, other);
        add_reason(lines, spec, reason);
        lines.word("\n");
    }
}

fn add_way(lines: &mut Lines, spec: &Spec, graph: &Graph, at: Position, way: u32) {
    lines.part("    way ", u64::from(at.conj) + 1);
    lines.part(".", u64::from(at.literal) + 1);
    lines.part(".", u64::from(way) + 1);
    if let Some(other) = falsifies(graph, at, way) {
        lines.part(" falsifies ", u64::from(other) + 1);
    }
    lines.word("\n");
    for other in 0..spec.constraints.items().len() {
        add_broken(lines, spec, graph, at, way, narrow(other));
    }
}

fn add_literal(lines: &mut Lines, spec: &Spec, graph: &Graph, at: Position) {
    for way in 0..ways(graph, at).len() {
        add_way(lines, spec, graph, at, narrow(way));
    }
}

fn add_conj(
    lines: &mut Lines,
    spec: &Spec,
    graph: &Graph,
    constraint: u32,
    conj: u32,
    literals: usize,
) {
    for literal in 0..literals {
        let at = Position {
            constraint,
            conj,
            literal: narrow(literal),
        };
        add_literal(lines, spec, graph, at);
    }
}

fn add_literals(
    lines: &mut Lines,
    spec: &Spec,
    graph: &Graph,
    number: u32,
    constraint: &Constraint,
) {
    for (place, conj) in constraint.conjs.items().iter().enumerate() {
        let literals = conj.literals.items().len();
        add_conj(lines, spec, graph, number, narrow(place), literals);
    }
}

fn add_relied(lines: &mut Lines, spec: &Spec, graph: &Graph, number: u32) {
    for on in 0..spec.constraints.items().len() {
        if relies(graph, number, narrow(on)) {
            lines.word("    relies on ");
            add_name(lines, spec, narrow(on));
            lines.word("\n");
        }
    }
}

/// The constraint's name, and below it on which ones it relies, and what comes of each template of
/// its literals.
pub fn add_constraint(lines: &mut Lines, spec: &Spec, graph: &Graph, number: u32) {
    let Some(constraint) = spec.constraints.items().get(number as usize) else {
        return;
    };
    lines.word("  constraint ");
    lines.name(&constraint.name);
    lines.word("\n");
    add_relied(lines, spec, graph, number);
    add_literals(lines, spec, graph, number, constraint);
}
