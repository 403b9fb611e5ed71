// What stands in the way of a plan, in words.
ghost use Rattle.dsr_meaning.specs.Typed.{IsTyped};

use crate::lines::{push_filled, word_at};
use crate::needs::push_needs;
use crate::reading::Meaning;
use crate::sources::{constraint_source, push_words};
use dsr_graph::{Graph, graph};
use dsr_ir::{Atom, Constraint, Literal, Op, Spec};
use dsr_show::push_literal;
use dsr_ways::variables_of;
use dsr_wording::{Text, numbered};

// The number of the constraint with this name.
fn constraint_named(spec: &Spec, name: &str) -> Option<u32> {
    for (number, constraint) in spec.constraints.items().iter().enumerate() {
        if constraint.name.bytes() == name.as_bytes() {
            return Some(numbered(number));
        }
    }
    None
}

// Appends the name of a member of the stuck set, with its source.
fn push_named(text: &mut Text, meaning: &Meaning, member: Option<u32>, name: &str) {
    text.push("  `");
    text.push(name);
    text.push("`");
    if let Some(number) = member {
        let (line, words) = constraint_source(&meaning.text, &meaning.tree, number);
        text.push(" (line ");
        text.number(line as u64);
        text.push(": ");
        push_words(text, words);
        text.push(")");
    }
}

// Appends the literals of a member that can't be made true.
fn push_hindered(text: &mut Text, meaning: &Meaning, graph: &Graph, number: u32) {
    if let Some(constraint) = meaning.spec.constraints.items().get(number as usize) {
        let variables = variables_of(&meaning.tree, number);
        push_needs(text, &meaning.spec, graph, variables, number, constraint);
    }
}

// Appends a member of the stuck set, with the literals that can't be made true.
fn push_stuck(text: &mut Text, meaning: &Meaning, graph: &Graph, member: Option<u32>, name: &str) {
    push_named(text, meaning, member, name);
    text.push(" has no place in an order\n");
    if let Some(number) = member {
        push_hindered(text, meaning, graph, number);
    }
}

// What a list has under a number that counts from 1.
fn numbered_from_one<'a, T>(items: &'a [T], word: &str) -> Option<&'a T> {
    match word.parse::<usize>() {
        Ok(number) => items.get(number.checked_sub(1)?),
        Err(_) => None,
    }
}

// The literal of a constraint with the numbers `C.L.T`.
fn literal_of<'a>(constraint: &'a Constraint, numbers: &str) -> Option<&'a Literal> {
    let (conj, rest) = numbers.split_once('.')?;
    let literal = rest.split_once('.').unwrap_or((rest, "")).0;
    let literals = numbered_from_one(constraint.conjs.items(), conj)?;
    numbered_from_one(literals.literals.items(), literal)
}

// The literal of a member for which a way is tried.
fn tried<'a>(meaning: &'a Meaning, member: Option<u32>, numbers: &str) -> Option<&'a Literal> {
    let constraint = meaning.spec.constraints.items().get(member? as usize)?;
    literal_of(constraint, numbers)
}

// Appends the literal of a member for which a way is tried.
fn push_tried(text: &mut Text, meaning: &Meaning, member: Option<u32>, numbers: &str) {
    if let Some(literal) = tried(meaning, member, numbers) {
        let variables = variables_of(&meaning.tree, member.unwrap_or(0));
        text.push(" to make `");
        push_literal(text, &meaning.spec, variables, literal);
        text.push("` true");
    }
}

const GAIN: &str = " may add facts to `{7}`, and so break `{3}`\n";

const LOSS: &str = " may take facts from `{7}`, and so break `{3}`\n";

// Appends what a way of a member breaks: `way C.L.T breaks OTHER by gain of SYMBOL`.
fn push_way(text: &mut Text, meaning: &Meaning, member: Option<u32>, line: &str) {
    push_filled(text, "    way {1}", line);
    push_tried(text, meaning, member, word_at(line, 1));
    let is_gain = word_at(line, 5) == "gain";
    push_filled(text, if is_gain { GAIN } else { LOSS }, line);
}

const CYCLE: &str = "\
. Of the ways above ask which can't happen in your structure, and say why in the specification: by \
a constraint that is declared earlier, by a narrower rule, or by other words for the constraint\n";

// What stands before a name of a cycle, by the name's place in the line.
fn before_waiting(place: usize) -> &'static str {
    match place {
        1 => "  `",
        2 => " waits for `",
        _ => ", which waits for `",
    }
}

// Appends which member waits for which: `cycle NAME .. NAME`.
fn push_cycle(text: &mut Text, line: &str) {
    for (place, name) in line.split_whitespace().enumerate() {
        if place > 0 {
            text.push(before_waiting(place));
            text.push(name);
            text.push("`");
        }
    }
    text.push(CYCLE);
}

// Which constraint relies on a member: `relied by NAME`.
const RELIED: &str = "    `{2}` relies on it, and so is repaired later\n";

const UNREPAIRABLE: &str =
    "  no order helps `{1}`: each of its conjunctions has a literal that nothing makes true\n";

// Appends what a line of the answer means, which is about a member of the stuck set.
fn push_line(text: &mut Text, meaning: &Meaning, graph: &Graph, member: Option<u32>, line: &str) {
    match word_at(line, 0) {
        "stuck" => push_stuck(text, meaning, graph, member, word_at(line, 1)),
        "way" => push_way(text, meaning, member, line),
        "cycle" => push_cycle(text, line),
        "relied" => push_filled(text, RELIED, line),
        "unrepairable" => push_filled(text, UNREPAIRABLE, line),
        _ => {}
    }
}

const ZERO: &str =
    "  a size `= 0` may be broken by a loss; `<= 0` asks for the same, and can't be\n";

// Whether a constraint asks that a size is 0, and not that it is at most 0.
fn asks_for_zero(constraint: &Constraint) -> bool {
    for conj in constraint.conjs.items() {
        for literal in conj.literals.items() {
            if let Atom::Count(_, Op::Eq, 0) = literal.atom {
                return true;
            }
        }
    }
    false
}

// Whether a line tells that a loss breaks a constraint which asks that a size is 0.
fn breaks_zero(spec: &Spec, line: &str) -> bool {
    if word_at(line, 0) != "way" || word_at(line, 5) != "loss" {
        return false;
    }
    match constraint_named(spec, word_at(line, 3)) {
        Some(number) => match spec.constraints.items().get(number as usize) {
            Some(constraint) => asks_for_zero(constraint),
            None => false,
        },
        None => false,
    }
}

// Appends what each line of the answer means.
fn push_lines(text: &mut Text, meaning: &Meaning, graph: &Graph, out: &str) {
    let mut member = None;
    for line in out.lines() {
        if word_at(line, 0) == "stuck" {
            member = constraint_named(&meaning.spec, word_at(line, 1));
        }
        push_line(text, meaning, graph, member, line);
    }
}

// Whether some line of the answer tells that a loss breaks a constraint which asks for a size of 0.
fn breaks_any_zero(spec: &Spec, out: &str) -> bool {
    for line in out.lines() {
        if breaks_zero(spec, line) {
            return true;
        }
    }
    false
}

// Appends what the answer means, once the graph is known.
fn push_refusal(text: &mut Text, meaning: &Meaning, graph: &Graph, out: &str) {
    text.push("error: the constraints have no order of repair\n");
    push_lines(text, meaning, graph, out);
    if breaks_any_zero(&meaning.spec, out) {
        text.push(ZERO);
    }
}

/// Appends what the answer means that there is no plan: of each constraint that is stuck what it
/// waits for, and what nothing is tried for.
pub fn refusal_told(text: &mut Text, meaning: &Meaning, out: &str)
    requires { IsTyped meaning.now.spec }
{
    match graph(text.allocator(), &meaning.spec) {
        Ok(graph) => push_refusal(text, meaning, &graph, out),
        Err(_) => text.cut(),
    }
}
