// What is told of a name that is declared twice.
use dsr_declarations::{around, named, own_field, parent_of, place_in};
use dsr_passages::{Declaration, Scene, Words, line_of, name_in};
use dsr_tree::Tree;
use dsr_wording::Text;

// Where a set or a relation with this name is declared, a set before all relations.
fn shared(tree: &Tree, name: &[u8]) -> Option<u64> {
    match named(tree.sets.items(), name) {
        Some(set) => Some(set.name.place),
        None => Some(named(tree.relations.items(), name)?.name.place),
    }
}

// Where a field with this name is declared before a place, in the structure there or one that it
// extends.
fn earlier_field(tree: &Tree, name: &[u8], place: u64) -> Option<u64> {
    let mut owner = around(tree.structures.items(), place)?;
    for _step in tree.structures.items() {
        if let Some(field) = own_field(owner, name)
            && field.name.place < place
        {
            return Some(field.name.place);
        }
        owner = parent_of(tree, owner)?;
    }
    None
}

// Where a name that has to differ from the one at the place is declared first.
fn earlier(scene: &Scene<'_>, tree: &Tree, name: &[u8]) -> Option<u64> {
    let (declaration, start) = scene.declaration();
    match declaration {
        Declaration::Structure if scene.at == start.saturating_add(1) => {
            Some(named(tree.structures.items(), name)?.name.place)
        }
        Declaration::Structure => earlier_field(tree, name, place_in(scene)),
        Declaration::Pool => Some(named(tree.pools.items(), name)?.name.place),
        Declaration::Constraint => Some(named(tree.constraints.items(), name)?.name.place),
        _ => shared(tree, name),
    }
}

// That a name is declared twice, and where it is declared first.
fn say_name(words: &mut Words, scene: &Scene<'_>, tree: &Tree, name: &[u8]) {
    words.say_of("`{}` is declared twice", &[name]);
    if let Some(place) = earlier(scene, tree, name)
        && place < place_in(scene)
    {
        let mut hint = Text::new(words.message.allocator());
        hint.push("it is declared first in line ");
        hint.number(line_of(scene.text, place) as u64);
        words.add(hint);
    }
}

// Whether a name is one of a set and of a relation.
fn is_shared(tree: &Tree, name: &[u8]) -> bool {
    named(tree.sets.items(), name).is_some() && named(tree.relations.items(), name).is_some()
}

/// That a name is declared twice.
pub fn say_twice(words: &mut Words, scene: &Scene<'_>, tree: &Tree) {
    let (declaration, start) = scene.declaration();
    let name = name_in(scene.found()).unwrap_or(b"");
    match declaration {
        Declaration::Fresh => {
            words.say("this pool has a supply already");
            words.hint("name all sets to avoid behind one `avoid`, as `fresh p avoid S, T;`");
        }
        Declaration::Rule => words.say("the index has the name of the record"),
        Declaration::Constraint if scene.at != start.saturating_add(1) => {
            words.say_of("both variables are called `{}`", &[name]);
            words.hint("give each a name of its own");
        }
        _ => say_name(words, scene, tree, name),
    }
    if declaration == Declaration::Relation && is_shared(tree, name) {
        words.hint("sets and relations share their names");
    }
}
