// What is told of a text of the grammar that means no specification.
use crate::atoms::say_atom;
use crate::guards::say_guard;
use crate::limits::{say_fixed, say_limit, say_parent};
use crate::members::say_member;
use crate::pairs::say_pair;
use crate::twice::say_twice;
use crate::unknown::say_unknown;
use crate::views::{say_set, say_supply};
use crate::widths::{say_unaligned, say_width};
use dsr_declarations::{around, place_in, place_of};
use dsr_ir::NoMemory;
use dsr_passages::{Declaration, Diagnosis, Scene, Words, length_of};
use dsr_tree::{Condition, Inclusion, Rule, Tree};
use std::alloc::Global;

const LENGTHS: &str = "two lengths aren't written as the same expression";

const LENGTHS_HINT: &str =
    "what is read at the rule's index has the length of what the index runs over, word for word: `n` and `n + 0` differ";

const INDEX: &str = "the index of this rule doesn't fit";

const INDEX_HINT: &str =
    "an array is read at the rule's index, `x.f[k]` with `, k in f`; a scalar without; `, k in pool p` stands under `head`, and reads no array";

const NEGATED: &str = "`not` can't stand over a size or a value";

const NEGATED_HINT: &str =
    "turn the comparison round: `not x.V <= 9` is `x.V > 9`; sizes have `<=`, `>=` and `=` alone";

const LARGE: &str =
    "this constraint's normal form has more than 16 conjunctions, or one of more than 8 literals";

const ATOMS: &str = "this constraint has more than 8 different atoms";

const SPLIT_HINT: &str = "split it: `a and b` are two constraints";

const CONDITIONS: [Condition; 13] = [
    Condition::NameTwice,
    Condition::UnknownName,
    Condition::Align,
    Condition::FixedPlace,
    Condition::SubtypeLoop,
    Condition::Limit,
    Condition::PoolMismatch,
    Condition::LengthMismatch,
    Condition::BadIndex,
    Condition::Width,
    Condition::NegatedValue,
    Condition::TooManyConjunctions,
    Condition::TooManyAtoms,
];

// The condition that a refusal tells by its number.
fn condition_of(kind: u8) -> Condition {
    for condition in CONDITIONS {
        if condition.kind() == kind {
            return condition;
        }
    }
    Condition::TooManyAtoms
}

// That what a rule gives isn't of its set or relation.
fn say_inclusion(words: &mut Words, tree: &Tree, rule: &Rule) {
    match &rule.inclusion {
        Inclusion::Pair {
            place: _,
            term,
            path,
            relation,
        } => say_pair(words, tree, rule, term, path, relation.name.bytes()),
        Inclusion::Member { member, set } => {
            say_member(words, tree, rule, member, set.name.bytes());
        }
    }
}

// Where what a rule gives begins.
fn inclusion_place(inclusion: &Inclusion) -> u64 {
    match inclusion {
        Inclusion::Pair {
            place,
            term: _,
            path: _,
            relation: _,
        } => *place,
        Inclusion::Member { member, set: _ } => place_of(&member.var),
    }
}

fn say_rule(words: &mut Words, scene: &Scene<'_>, tree: &Tree) {
    let place = place_in(scene);
    match around(tree.rules.items(), place) {
        Some(rule) if place < inclusion_place(&rule.inclusion) => say_guard(words, rule, place),
        Some(rule) => say_inclusion(words, tree, rule),
        None => words.say("pools or kinds of values disagree here"),
    }
}

// That pools, structures or kinds of values disagree.
fn say_misfit(words: &mut Words, scene: &Scene<'_>, tree: &Tree) {
    let (declaration, _) = scene.declaration();
    match declaration {
        Declaration::Set => say_set(words, tree, place_in(scene)),
        Declaration::Fresh => say_supply(words, tree, place_in(scene)),
        Declaration::Rule => say_rule(words, scene, tree),
        _ => say_atom(words, scene, tree),
    }
}

// What is always told of a condition in the same words: what is wrong, and what may help.
fn fixed_words(condition: Condition) -> (&'static str, &'static str) {
    match condition {
        Condition::LengthMismatch => (LENGTHS, LENGTHS_HINT),
        Condition::BadIndex => (INDEX, INDEX_HINT),
        Condition::NegatedValue => (NEGATED, NEGATED_HINT),
        Condition::TooManyConjunctions => (LARGE, SPLIT_HINT),
        _ => (ATOMS, SPLIT_HINT),
    }
}

fn say(alloc: Global, words: &mut Words, scene: &Scene<'_>, tree: &Tree, condition: Condition) {
    match condition {
        Condition::NameTwice => say_twice(words, scene, tree),
        Condition::UnknownName => say_unknown(alloc, words, scene, tree),
        Condition::Align => say_unaligned(words, scene, tree),
        Condition::FixedPlace => say_fixed(words, scene, tree),
        Condition::SubtypeLoop => say_parent(words, scene),
        Condition::Limit => say_limit(words, scene, tree),
        Condition::PoolMismatch => say_misfit(words, scene, tree),
        Condition::Width => say_width(words, scene, tree),
        _ => {
            let (message, hint) = fixed_words(condition);
            words.say(message);
            words.hint(hint);
        }
    }
}

/// What is told of a condition that holds at the place, by its number.
pub fn refused(
    alloc: Global,
    scene: &Scene<'_>,
    tree: &Tree,
    kind: u8,
) -> Result<Diagnosis, NoMemory> {
    let mut words = Words::new(alloc);
    say(alloc, &mut words, scene, tree, condition_of(kind));
    let (place, length) = match scene.found() {
        Some(lexeme) => (lexeme.place as usize, length_of(scene.text, lexeme)),
        None => (0, 0),
    };
    words.at(place, length)
}
