// A repair's report in sentences.
use crate::lines::{push_filled, push_where, word_at};
use crate::listed::push_change;
use dsr_show::ImageModel;
use dsr_wording::{Text, numbered};

// What stands before a number so that it takes three letters.
fn indent_of(number: &str) -> &'static str {
    match number.len() {
        0 => "   ",
        1 => "  ",
        2 => " ",
        _ => "",
    }
}

// Appends what a step was for: `update I NAME BINDING C.L RULE`.
fn push_update(text: &mut Text, line: &str) {
    text.push(indent_of(word_at(line, 1)));
    push_filled(text, "{1}. `{2}` was violated", line);
    push_where(text, word_at(line, 3));
    text.push("\n");
}

// Which record was reset: `reset ELEMENT`.
const RESET: &str = "     {1} is a fresh record: all its fields are reset\n";

// What was set: `set ELEMENT.FIELD OLD NEW`.
const SET: &str = "     {1} was {2}, and is {3}\n";

const EMPTY: &str = "\
, and asks for a fresh record of pool `{1}`, of which none is left: each slot is in a set behind \
`avoid`\n";

// Appends that no fresh record is left: `empty POOL NAME BINDING C.L`.
fn push_empty(text: &mut Text, line: &str) {
    push_filled(text, "error: `{2}` is violated", line);
    push_where(text, word_at(line, 3));
    push_filled(text, EMPTY, line);
}

// Appends what a line of a report means. The bytes are left to the answer.
fn push_line(text: &mut Text, line: &str) {
    match word_at(line, 0) {
        "update" => push_update(text, line),
        "reset" => push_filled(text, RESET, line),
        "set" => push_filled(text, SET, line),
        "empty" => push_empty(text, line),
        _ => {}
    }
}

/// Appends a repair's report, a sentence for each step and each change.
pub fn report_told(text: &mut Text, out: &str) {
    for line in out.lines() {
        push_line(text, line);
    }
}

/// Appends, by set, which records were members before and are none, and which joined.
pub fn members_told(text: &mut Text, before: &ImageModel<'_>, after: &ImageModel<'_>) {
    for (number, set) in before.spec.base.sets.items().iter().enumerate() {
        let name = set.name.bytes();
        push_change(text, before, after, numbered(number), name, "no longer in");
        push_change(text, after, before, numbered(number), name, "now in");
    }
}
