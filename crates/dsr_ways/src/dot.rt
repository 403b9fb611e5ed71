// The dependence graph for Graphviz.
ghost use Rattle.dsr_meaning.specs.Typed.{IsTyped};

use dsr_graph::{Graph, Position, breaks, graph, relies, ways};
use dsr_ir::{Constraint, Spec};
use dsr_wording::{Text, numbered};

// Whether some template of a literal breaks another constraint.
fn literal_breaks(graph: &Graph, at: Position, other: u32) -> bool {
    for way in 0..ways(graph, at).len() {
        if breaks(graph, at, numbered(way), other).is_some() {
            return true;
        }
    }
    false
}

// Whether some template of a conjunction's literals breaks another constraint.
fn conj_breaks(graph: &Graph, constraint: u32, conj: u32, literals: usize, other: u32) -> bool {
    for literal in 0..literals {
        let at = Position {
            constraint,
            conj,
            literal: numbered(literal),
        };
        if literal_breaks(graph, at, other) {
            return true;
        }
    }
    false
}

// Whether some template of a constraint breaks another one.
fn may_break(graph: &Graph, number: u32, constraint: &Constraint, other: u32) -> bool {
    for (conj, literals) in constraint.conjs.items().iter().enumerate() {
        let count = literals.literals.items().len();
        if conj_breaks(graph, number, numbered(conj), count, other) {
            return true;
        }
    }
    false
}

// Edges from a constraint to another one.
const MAY_BREAK: &str = "  \"{}\" -> \"{}\" [label=\"may break\"];\n";

const RELIES_ON: &str = "  \"{}\" -> \"{}\" [label=\"relies on\", style=dashed];\n";

// Appends the edges from a constraint.
fn push_edges(text: &mut Text, spec: &Spec, graph: &Graph, number: u32, constraint: &Constraint) {
    for (other, its) in spec.constraints.items().iter().enumerate() {
        let names = [constraint.name.bytes(), its.name.bytes()];
        if may_break(graph, number, constraint, numbered(other)) {
            text.fill(MAY_BREAK, &names);
        }
        if relies(graph, number, numbered(other)) {
            text.fill(RELIES_ON, &names);
        }
    }
}

// Appends the constraints, each with the edges from it.
fn push_nodes(text: &mut Text, spec: &Spec, graph: &Graph) {
    for (number, constraint) in spec.constraints.items().iter().enumerate() {
        text.fill("  \"{}\" [shape=box];\n", &[constraint.name.bytes()]);
        push_edges(text, spec, graph, numbered(number), constraint);
    }
}

// Appends a graph, once it is known.
fn push_known(text: &mut Text, spec: &Spec, graph: &Graph) {
    text.push("digraph repairs {\n");
    push_nodes(text, spec, graph);
    text.push("}\n");
}

/// Appends the dependence graph of a specification for Graphviz: an edge from each constraint to
/// those that its templates may break, and a dashed one to those on which it relies.
pub fn push_graph(text: &mut Text, spec: &Spec)
    requires { IsTyped spec.now }
{
    match graph(text.allocator(), spec) {
        Ok(graph) => push_known(text, spec, &graph),
        Err(_) => text.cut(),
    }
}
