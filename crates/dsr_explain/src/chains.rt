// The rules of a chain, with their sources.
use crate::lines::word_at;
use crate::reading::Meaning;
use crate::showing::symbol_named;
use crate::sources::{push_words, rule_source};
use dsr_ir::Spec;
use dsr_tree::Tree;
use dsr_wording::Text;

// The number of the rule of a step, counted from 0: `I rule RULE at ELEMENT ..`.
fn rule_of(line: &str) -> Option<u32> {
    if word_at(line, 1) != "rule" {
        return None;
    }
    word_at(line, 2).parse::<u32>().ok()?.checked_sub(1)
}

const WRITTEN: &str =
    "what is asked for is written as Nodes:nodes[3] or Next:<nodes[0],nodes[2]>\n";

// Appends why no rules give what is asked for of the set or relation with this name.
fn push_unheld_of(text: &mut Text, spec: &Spec, name: &str) {
    if symbol_named(spec, name).is_some() {
        text.push("no rules give this: it isn't in `");
    } else {
        text.push("no set and no relation has the name `");
    }
    text.push(name);
    text.push("`\n");
}

// Appends why no rules give what is asked for.
fn push_unheld(text: &mut Text, spec: &Spec, asked: &str) {
    match asked.split_once(':') {
        Some((name, _)) => push_unheld_of(text, spec, name),
        None => text.push(WRITTEN),
    }
}

// Appends what an answer without a chain means.
fn push_none(text: &mut Text, spec: &Spec, asked: &str, line: &str) {
    if line == "no chain" {
        push_unheld(text, spec, asked);
    }
    if let Some(set) = line.strip_prefix("outside ") {
        text.push("the set is the complement of ");
        text.push(set);
        text.push(", and no rules lead to the record in ");
        text.push(set);
        text.push("\n");
    }
}

// Appends a rule with its source.
fn push_rule(text: &mut Text, source: &[u8], tree: &Tree, number: u32) {
    let (line, words) = rule_source(source, tree, number);
    text.push("rule ");
    text.number(u64::from(number.saturating_add(1)));
    text.push(" (line ");
    text.number(line as u64);
    text.push("): ");
    push_words(text, words);
    text.push("\n");
}

/// Appends the source of each step's rule, or why there is no chain to what is asked for.
pub fn chain_told(text: &mut Text, meaning: &Meaning, asked: &str, out: &str) {
    for line in out.lines() {
        match rule_of(line) {
            Some(number) => push_rule(text, &meaning.text, &meaning.tree, number),
            None => push_none(text, &meaning.spec, asked, line),
        }
    }
}
