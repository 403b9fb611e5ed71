// What the graph tells.
ghost use Rattle.std.specs.Prelude.{◌≡◌, Decides, List, Some, option_map, slice_get};
ghost use Rattle.dsr_graph_theory.specs.Breaks.{Breaks, Falsifies, Relies};
ghost use Rattle.dsr_graph.specs.Graphs as said;
ghost use Rattle.dsr_graph.specs.Graphs.{IsOwnerIn, IsWayOf, owner_at, ways_of};
ghost use Rattle.dsr_ir.specs.declared.constraints.Constraint.{Constraint as ConstraintOf};
ghost use Rattle.dsr_ir.specs.declared.updates.Template.{Template as TemplateOf};
ghost use Rattle.dsr_graph_theory.specs.Lists.{AreListedOf};
ghost use Rattle.dsr_graph_theory.specs.Owners.{Owner as OwnerOf};
ghost use Rattle.dsr_meaning.specs.Counting.{IsIn};

use crate::graphs::{Graph, Node};
use crate::listings::{Listing, Outcome};
use dsr_graph_theory::Reason;
use dsr_ir::Template;

/// A literal by its numbers: its constraint's, its conjunction's and its own there.
#[derive(Clone, Copy)]
pub struct Position {
    pub constraint: u32,
    pub conj: u32,
    pub literal: u32,
}

// The kinds of the literals of the conjunction with this number.
fn kinds(node: &Node, conj: u32) -> &[usize]
    ensures { result.now ≡ said.kinds_at node.now conj }
{
    match node.kinds.numbers.get(conj as usize) {
        Some(kinds) => kinds,
        None => &[],
    }
}

// What is listed for the literal with these numbers.
fn listing(node: &Node, conj: u32, literal: u32) -> Option<&Listing>
    ensures { option_map (λ l. l.now) result ≡ said.listing_at node.now conj literal }
{
    let kind = kinds(node, conj).get(literal as usize)?;
    node.listings.get(*kind)
}

fn listing_in(graph: &Graph, at: Position) -> Option<&Listing>
    ensures { option_map (λ l. l.now) result
        ≡ said.listing_in graph.now at.constraint at.conj at.literal }
{
    let node = graph.nodes.get(at.constraint as usize)?;
    listing(node, at.conj, at.literal)
}

fn outcome(graph: &Graph, at: Position, way: u32) -> Option<&Outcome>
    ensures { option_map (λ o. o.now) result
        ≡ said.outcome_in graph.now at.constraint at.conj at.literal way }
{
    let listing = listing_in(graph, at)?;
    listing.outcomes.get(way as usize)
}

// The templates of what is listed.
fn templates(listing: Option<&Listing>) -> &[Template]
    ensures { result.now ≡ said.templates_of (option_map (λ l. l.now) listing.entry) }
{
    match listing {
        Some(listing) => &listing.templates,
        None => &[],
    }
}

/// The templates that are listed for the literal, in their order; none where there is no such
/// literal.
pub fn ways(graph: &Graph, at: Position) -> &[Template]
    ensures ways { result.now ≡ ways_of graph.now at.constraint at.conj at.literal }
    ensures listed { (owner : OwnerOf) → IsOwnerIn graph.now at.constraint owner
        → AreListedOf owner at.conj at.literal result.now }
    ensures only { (owner : OwnerOf) (templates : List TemplateOf)
        → IsOwnerIn graph.now at.constraint owner
        → AreListedOf owner at.conj at.literal templates → templates ≡ result.now }
{
    templates(listing_in(graph, at))
}

// Why the template breaks the other constraint, if it does.
fn reason(outcome: &Outcome, other: u32) -> Option<Reason>
    ensures { result ≡ said.reason_at outcome.now other }
{
    match outcome.broken.items().get(other as usize) {
        Some(edge) => edge.reason(),
        None => None,
    }
}

fn broken_in(graph: &Graph, at: Position, way: u32, other: u32) -> Option<Reason>
    ensures { result ≡ said.broken_in graph.now at.constraint at.conj at.literal way other }
{
    let outcome = outcome(graph, at, way)?;
    reason(outcome, other)
}

/// Why the template with this number among those that are listed for the literal, counted from 0,
/// breaks the other constraint; none where it doesn't.
pub fn breaks(graph: &Graph, at: Position, way: u32, other: u32) -> Option<Reason>
    ensures told { result ≡ said.broken_in graph.now at.constraint at.conj at.literal way other }
    ensures breaks { (owner : OwnerOf) (template : TemplateOf) (its : ConstraintOf)
        → IsWayOf graph.now at.constraint at.conj at.literal way owner template
        → slice_get owner.spec.constraints other ≡ Some its
        → Breaks owner (owner_at owner.spec other its) template result }
{
    broken_in(graph, at, way, other)
}

// Whether a literal of the kind may turn false.
fn is_marked(outcome: &Outcome, kind: usize) -> bool
    ensures { result ≡ said.is_marked outcome.now kind }
{
    match outcome.falsified.items().get(kind) {
        Some(marked) => *marked,
        None => false,
    }
}

// Whether a literal of the kind, with this place, isn't the template's own and may turn false.
fn turns(outcome: &Outcome, own: usize, place: usize, kind: usize) -> bool
    ensures { result ≡ said.turns outcome.now own place kind }
{
    place != own && is_marked(outcome, kind)
}

// The first of the literals with these kinds, but for the one with this place, that may turn false.
fn first_marked(outcome: &Outcome, own: usize, kinds: &[usize]) -> Option<usize>
    ensures { result ≡ said.first_marked outcome.now own 0 kinds.now }
{
    for (place, kind) in kinds.iter().enumerate() {
        if turns(outcome, own, place, *kind) {
            return Some(place);
        }
    }
    None
}

// The kinds of the literals of a constraint's conjunction.
fn kinds_in(graph: &Graph, constraint: u32, conj: u32) -> &[usize]
    ensures { result.now ≡ said.kinds_in graph.now constraint conj }
{
    match graph.nodes.get(constraint as usize) {
        Some(node) => kinds(node, conj),
        None => &[],
    }
}

// The place of the first other literal that may turn false.
fn falsified_in(graph: &Graph, at: Position, way: u32) -> Option<usize>
    ensures { result ≡ said.falsified_in graph.now at.constraint at.conj at.literal way }
{
    let outcome = outcome(graph, at, way)?;
    first_marked(
        outcome,
        at.literal as usize,
        kinds_in(graph, at.constraint, at.conj),
    )
}

/// The first other literal of its conjunction that the literal's template with this number, counted
/// from 0, may turn false; none where it may turn none so.
pub fn falsifies(graph: &Graph, at: Position, way: u32) -> Option<u32>
    ensures told { (owner : OwnerOf) → IsOwnerIn graph.now at.constraint owner
        → result ≡ said.falsified_in graph.now at.constraint at.conj at.literal way }
    ensures falsifies { (owner : OwnerOf) (template : TemplateOf)
        → IsWayOf graph.now at.constraint at.conj at.literal way owner template
        → Falsifies owner at.conj at.literal template result }
{
    match falsified_in(graph, at, way) {
        Some(place) => u32::try_from(place).ok(),
        None => None,
    }
}

// The constraints whose facts the constraint uses.
fn from_in(graph: &Graph, constraint: u32) -> &[u32]
    ensures { result.now ≡ said.from_in graph.now constraint }
{
    match graph.nodes.get(constraint as usize) {
        Some(node) => node.from.items(),
        None => &[],
    }
}

fn is_among(numbers: &[u32], number: u32) -> bool
    ensures { Decides result (IsIn number numbers.now) }
{
    numbers.contains(&number)
}

/// Whether the constraint uses a fact that the other one gives.
pub fn relies(graph: &Graph, constraint: u32, on: u32) -> bool
    ensures told { Decides result (IsIn on (said.from_in graph.now constraint)) }
    ensures relies { (owner : OwnerOf) → IsOwnerIn graph.now constraint owner
        → Decides result (Relies owner.spec constraint on) }
{
    is_among(from_in(graph, constraint), on)
}
