// How each constraint would be repaired.
ghost use Rattle.std.specs.Prelude.{◌≡◌, option_map};
ghost use Rattle.dsr_meaning.specs.Typed.{IsTyped};
ghost use Rattle.dsr_plan_theory.specs.Plans.{way_at};
ghost use Rattle.dsr_ways.specs.TakenNumbers.{told_number};

use crate::templates::push_template;
use crate::variables::variables_of;
use dsr_answers::constraint_name;
use dsr_command_plan::{Found, find};
use dsr_graph::{Graph, Position, breaks, falsifies, graph, ways};
use dsr_ir::{Conj, Constraint, Literal, Spec};
use dsr_plan_theory::{Row, Way};
use dsr_show::{Variables, push_literal};
use dsr_tree::Tree;
use dsr_wording::{Text, numbered};

// A specification with what is known of its repairs.
#[derive(Clone, Copy)]
struct Repairs<'a> {
    spec: &'a Spec,
    graph: &'a Graph,
    found: &'a Found,
}

// What the plan takes for a constraint; none where there is no plan.
fn row_of<'a>(repairs: &Repairs<'a>, constraint: u32) -> Option<&'a Row> {
    match repairs.found {
        Found::Plan(choice) => choice.rows.items().get(constraint as usize),
        Found::Stuck(_) => None,
    }
}

// The way of a row for a literal.
fn way_of<'a>(row: &'a Row, conj: u32, literal: u32) -> Option<&'a Way>
    ensures { option_map (λ way. way.now) result ≡ way_at row.now conj literal }
{
    match row.ways.items().get(conj as usize) {
        Some(ways) => ways.items().get(literal as usize),
        None => None,
    }
}

// The number of the template of a way, counted from 1; 0 where the literal is tested.
fn number_of(way: &Way) -> u32
    ensures { result ≡ told_number way.now }
{
    match way {
        Way::Test => 0,
        Way::By(number, _) => *number,
    }
}

// The number of the template that the plan takes for a literal, counted from 1; 0 where it is
// tested, none where there is no plan.
fn taken(repairs: &Repairs<'_>, at: Position) -> Option<u32> {
    match way_of(row_of(repairs, at.constraint)?, at.conj, at.literal) {
        Some(way) => Some(number_of(way)),
        None => None,
    }
}

// Appends the names of the constraints that a template breaks, in a line, where there are any.
fn push_broken_names(text: &mut Text, repairs: &Repairs<'_>, at: Position, way: u32) {
    let mut is_first = true;
    for (other, constraint) in repairs.spec.constraints.items().iter().enumerate() {
        if breaks(repairs.graph, at, way, numbered(other)).is_none() {
            continue;
        }
        text.push(if is_first { "      may break " } else { ", " });
        text.name(constraint.name.bytes());
        is_first = false;
    }
    if !is_first {
        text.push("\n");
    }
}

// Appends what a template breaks, and whether it spoils its own conjunction.
fn push_broken(text: &mut Text, repairs: &Repairs<'_>, at: Position, way: u32) {
    push_broken_names(text, repairs, at, way);
    if falsifies(repairs.graph, at, way).is_some() {
        text.push("      may make another literal of its conjunction false: not taken\n");
    }
}

// Appends the templates that are listed for a literal.
fn push_listed(
    text: &mut Text,
    repairs: &Repairs<'_>,
    variables: Variables<'_>,
    at: Position,
    taken: Option<u32>,
) {
    for (way, template) in ways(repairs.graph, at).iter().enumerate() {
        let way = numbered(way);
        let told = way.saturating_add(1);
        text.push("    way ");
        text.number(u64::from(told));
        text.push(if taken == Some(told) {
            " (taken): "
        } else {
            " (listed): "
        });
        push_template(text, repairs.spec, variables, template);
        text.push("\n");
        push_broken(text, repairs, at, way);
    }
}

// Appends what is done for a literal.
fn push_ways(text: &mut Text, repairs: &Repairs<'_>, variables: Variables<'_>, at: Position) {
    let taken = taken(repairs, at);
    push_listed(text, repairs, variables, at, taken);
    if taken == Some(0) {
        text.push("    only tested\n");
    }
    if ways(repairs.graph, at).is_empty() {
        text.push("    nothing is tried\n");
    }
}

// Appends a literal with its ways.
fn push_literal_ways(
    text: &mut Text,
    repairs: &Repairs<'_>,
    variables: Variables<'_>,
    at: Position,
    literal: &Literal,
) {
    text.push("  ");
    text.number(u64::from(at.conj.saturating_add(1)));
    text.push(".");
    text.number(u64::from(at.literal.saturating_add(1)));
    text.push(" ");
    push_literal(text, repairs.spec, variables, literal);
    text.push("\n");
    push_ways(text, repairs, variables, at);
}

// Appends the literals of a conjunction.
fn push_conj(
    text: &mut Text,
    repairs: &Repairs<'_>,
    variables: Variables<'_>,
    constraint: u32,
    number: u32,
    conj: &Conj,
) {
    for (place, literal) in conj.literals.items().iter().enumerate() {
        let at = Position {
            constraint,
            conj: number,
            literal: numbered(place),
        };
        push_literal_ways(text, repairs, variables, at, literal);
    }
}

// Appends a constraint's name and level.
fn push_heading(text: &mut Text, repairs: &Repairs<'_>, number: u32) {
    text.push("constraint ");
    text.name(constraint_name(repairs.spec, number));
    match row_of(repairs, number) {
        Some(row) => {
            text.push(": level ");
            text.number(u64::from(row.level));
            text.push("\n");
        }
        None => text.push(": no level, since there is no plan\n"),
    }
}

// Appends a constraint with its literals.
fn push_constraint(
    text: &mut Text,
    repairs: &Repairs<'_>,
    variables: Variables<'_>,
    number: u32,
    constraint: &Constraint,
) {
    push_heading(text, repairs, number);
    for (conj, literals) in constraint.conjs.items().iter().enumerate() {
        push_conj(text, repairs, variables, number, numbered(conj), literals);
    }
}

// Appends the constraints, once their repairs are known.
fn push_constraints(text: &mut Text, repairs: &Repairs<'_>, tree: &Tree) {
    for (number, constraint) in repairs.spec.constraints.items().iter().enumerate() {
        let number = numbered(number);
        let variables = variables_of(tree, number);
        push_constraint(text, repairs, variables, number, constraint);
    }
}

// Appends the constraints, once their graph is known.
fn push_by_graph(text: &mut Text, spec: &Spec, graph: &Graph, tree: &Tree)
    requires { IsTyped spec.now }
{
    match find(text.allocator(), spec) {
        Ok(found) => {
            let repairs = Repairs {
                spec,
                graph,
                found: &found,
            };
            push_constraints(text, &repairs, tree);
        }
        Err(_) => text.cut(),
    }
}

/// Appends how each constraint would be repaired: its level, its literals, and what would be
/// written for each by which rule.
pub fn push_repairs(text: &mut Text, spec: &Spec, tree: &Tree)
    requires { IsTyped spec.now }
{
    match graph(text.allocator(), spec) {
        Ok(graph) => push_by_graph(text, spec, &graph, tree),
        Err(_) => text.cut(),
    }
}
