// What is told of sets and supplies that don't fit their pools.
use dsr_declarations::{around, named};
use dsr_passages::Words;
use dsr_tree::{Fresh, PlacedName, Set, Tree, View};

const VIEW: &str = "`{}` doesn't extend `{}`, by which `{}` is read";

// Adds by which structure a set should be read.
fn hint_view(words: &mut Words, tree: &Tree, set: &Set, structure: &PlacedName) {
    let (view, pool) = (structure.name.bytes(), set.pool.name.bytes());
    let structure = match named(tree.pools.items(), pool) {
        Some(pool) => pool.structure.name.bytes(),
        None => b"the structure of its pool",
    };
    words.hint_of(VIEW, &[view, structure, pool]);
}

const BASE: &str = "a complement has the pool of its base: `{}` is a set of `{}`";

const NO_BASE: &str = "a complement has the pool of its base, `{}`";

// Adds of which pool the base of a complement is.
fn hint_base(words: &mut Words, tree: &Tree, base: &PlacedName) {
    let name = base.name.bytes();
    match named(tree.sets.items(), name) {
        Some(set) => words.hint_of(BASE, &[name, set.pool.name.bytes()]),
        None => words.hint_of(NO_BASE, &[name]),
    }
}

/// That a set is read by a structure that its pool hasn't, or has another pool than its base.
pub fn say_set(words: &mut Words, tree: &Tree, place: u64) {
    words.say("this set doesn't fit its pool");
    let Some(set) = around(tree.sets.items(), place) else {
        return;
    };
    match &set.view {
        Some(
            View::As {
                place: _,
                structure,
            },
        ) => hint_view(words, tree, set, structure),
        Some(
            View::Except {
                place: _,
                set: base,
            },
        ) => hint_base(words, tree, base),
        None => {}
    }
}

// Whether a set to avoid is of another pool.
fn is_other_pool(tree: &Tree, supply: &Fresh, name: &PlacedName) -> bool {
    match named(tree.sets.items(), name.name.bytes()) {
        Some(set) => set.pool.name.bytes() != supply.pool.name.bytes(),
        None => false,
    }
}

// The first set to avoid that is of another pool.
fn other_avoided<'a>(tree: &Tree, supply: &'a Fresh) -> Option<&'a PlacedName> {
    if is_other_pool(tree, supply, &supply.first) {
        return Some(&supply.first);
    }
    for name in supply.rest.items() {
        if is_other_pool(tree, supply, name) {
            return Some(name);
        }
    }
    None
}

/// That a set behind `avoid` has another pool than the supply.
pub fn say_supply(words: &mut Words, tree: &Tree, place: u64) {
    words.say("a set behind `avoid` is of another pool");
    let Some(supply) = around(tree.supplies.items(), place) else {
        return;
    };
    if let Some(name) = other_avoided(tree, supply) {
        let names = [name.name.bytes(), supply.pool.name.bytes()];
        words.hint_of("`{}` is no set of the pool `{}`", &names);
    }
}
