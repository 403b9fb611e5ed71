// What is told of what stands where the language doesn't allow it, or once too often.
use dsr_declarations::{around, is_head, own_field, place_in};
use dsr_passages::{Declaration, Scene, Words, name_in};
use dsr_tree::{Rule, Structure, Tree};

// Whether a rule has more guards than it may have.
fn has_many_guards(rule: &Rule) -> bool {
    match &rule.guards {
        Some(guards) => guards.rest.items().len() > 3,
        None => false,
    }
}

// Of rules there are too many, or one has too many guards.
fn rule_limit(scene: &Scene<'_>, tree: &Tree) -> &'static str {
    match around(tree.rules.items(), place_in(scene)) {
        Some(rule) if has_many_guards(rule) => "more than four guards in one rule",
        _ => "more than 128 rules",
    }
}

// Of what there is more than the language allows.
fn limit(scene: &Scene<'_>, tree: &Tree) -> &'static str {
    let (declaration, start) = scene.declaration();
    match declaration {
        Declaration::Structure if scene.at == start.saturating_add(1) => "more than 64 structures",
        Declaration::Structure => "more than 64 fields and gaps in one structure",
        Declaration::Pool => "more than 32 pools",
        Declaration::Rule => rule_limit(scene, tree),
        Declaration::Constraint if scene.is_second() => "more than 128 constraints",
        Declaration::Constraint => "more than 64 constraints",
        _ => "more than 64 sets and relations",
    }
}

/// That there are more than the language allows.
pub fn say_limit(words: &mut Words, scene: &Scene<'_>, tree: &Tree) {
    words.say(limit(scene, tree));
    let (declaration, _) = scene.declaration();
    if declaration == Declaration::Constraint && !scene.is_second() {
        words.hint("version 2 allows 128: begin the text with `version 2`");
    }
}

// Why a field of a structure can't be fixed.
fn fixed_hint(structure: &Structure, name: &[u8]) -> &'static str {
    if !is_head(structure) {
        return "only `Head` has fixed fields";
    }
    match own_field(structure, name) {
        Some(field) if field.length.is_some() => "no array is fixed",
        _ =>
            "before it stands an array or a `skip` whose length isn't a number: put the fixed fields first",
    }
}

/// That a fixed field stands where none may.
pub fn say_fixed(words: &mut Words, scene: &Scene<'_>, tree: &Tree) {
    let name = name_in(scene.found()).unwrap_or(b"");
    words.say_of("`{}` can't be fixed", &[name]);
    if let Some(structure) = around(tree.structures.items(), place_in(scene)) {
        words.hint(fixed_hint(structure, name));
    }
}

/// That a structure extends itself or a later one.
pub fn say_parent(words: &mut Words, scene: &Scene<'_>) {
    match (name_in(scene.before(2)), name_in(scene.found())) {
        (Some(name), Some(parent)) if name != parent => {
            words.say_of("the parent `{}` is declared later", &[parent]);
            words.hint("a parent stands before all that extend it");
        }
        _ => words.say("a structure can't extend itself"),
    }
}
