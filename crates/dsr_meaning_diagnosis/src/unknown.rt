// What is told of a name that isn't declared as what it is used for.
use dsr_declarations::{
    Declared, Role, around, candidates, declared_as, field_of, head_of, in_words, many_in_words,
    named, one_in_words, own_field, owner_of, place_in, role_of,
};
use dsr_passages::{Declaration, Scene, Words, meant_by, name_in, push_quoted};
use dsr_tree::{Structure, Tree};
use dsr_wording::Text;
use std::alloc::Global;

// What may have been meant to be `Head`.
const ALMOST_HEAD: &[&[u8]] = &[
    b"Header",
    b"HEAD",
    b"HEADER",
    b"Root",
    b"Superblock",
    b"SuperBlock",
    b"Super",
];

// A structure that may have been meant to be `Head`.
fn almost_head(structures: &[Structure]) -> Option<&'static [u8]> {
    for name in ALMOST_HEAD {
        if named(structures, name).is_some() {
            return Some(name);
        }
    }
    None
}

// That there is no structure of the head.
fn say_no_head(words: &mut Words, tree: &Tree) {
    words.say("there is no structure `Head`, which is the record at byte 0");
    match almost_head(tree.structures.items()) {
        Some(name) => words.hint_of("if `{}` is that record, call it `Head`", &[name]),
        None => words.hint("write `structure Head { }` where nothing of that record is read"),
    }
}

const NOT_FIXED: &str = "`{}` is a field of `Head` but not `fixed`: write `fixed` before its width";

const INHERITED: &str =
    "`Head` inherits `{}`: expressions read fixed fields that `Head` itself declares";

// Adds why a field of the head serves in no expression; tells whether there is one of this name.
fn hint_head_field(words: &mut Words, tree: &Tree, name: &[u8]) -> bool {
    let Some(head) = head_of(tree) else {
        return false;
    };
    if own_field(head, name).is_some() {
        words.hint_of(NOT_FIXED, &[name]);
        return true;
    }
    let is_inherited = field_of(tree, head, name).is_some();
    if is_inherited {
        words.hint_of(INHERITED, &[name]);
    }
    is_inherited
}

// Adds why a field that is declared isn't one that serves here; tells whether that is known.
fn hint_field(words: &mut Words, tree: &Tree, name: &[u8], role: Role) -> bool {
    if role == Role::FixedField && hint_head_field(words, tree, name) {
        return true;
    }
    let Some(owner) = owner_of(tree, name) else {
        return false;
    };
    let owner = owner.name.name.bytes();
    words.hint_of("`{}` is a field of `{}`", &[name, owner]);
    true
}

// Whether a name is the index of the rule in which the place stands.
fn is_index(scene: &Scene<'_>, tree: &Tree, name: &[u8]) -> bool {
    let (declaration, _) = scene.declaration();
    if declaration != Declaration::Rule {
        return false;
    }
    let Some(rule) = around(tree.rules.items(), place_in(scene)) else {
        return false;
    };
    match &rule.span {
        Some(span) => span.name.name.bytes() == name,
        None => false,
    }
}

const INDEX: &str = "`{}` is the rule's index, which stands in brackets alone";

// Adds what the name is declared as in place of what it is used for; tells whether it is.
fn hint_other(words: &mut Words, scene: &Scene<'_>, tree: &Tree, name: &[u8], role: Role) -> bool {
    if is_index(scene, tree, name) {
        words.hint_of(INDEX, &[name]);
        return true;
    }
    match declared_as(tree, name) {
        Some(Declared::Field) => hint_field(words, tree, name, role),
        Some(kind) => {
            let mut hint = Text::new(words.message.allocator());
            hint.fill("`{}` is ", &[name]);
            hint.push(kind.in_words());
            words.add(hint);
            true
        }
        None => false,
    }
}

// That the name isn't declared as what it is used for; tells whether it is known what else it is.
fn say_undeclared(
    words: &mut Words,
    scene: &Scene<'_>,
    tree: &Tree,
    name: &[u8],
    role: Role,
) -> bool {
    if role == Role::PlainSet && named(tree.sets.items(), name).is_some() {
        words.say_of("`{}` is a complement, which can't stand here", &[name]);
        return false;
    }
    words.say("no ");
    words.say(in_words(role));
    words.say_of(" is called `{}`", &[name]);
    hint_other(words, scene, tree, name, role)
}

// What is said before a list of so many things that are declared for the use.
fn list_words(count: usize, role: Role) -> (&'static str, &'static str, &'static str) {
    match count {
        0 => ("there are no ", many_in_words(role), ""),
        1 => ("the only ", one_in_words(role), " is "),
        _ => ("the ", many_in_words(role), " are "),
    }
}

// Adds what is declared for the use.
fn hint_list(words: &mut Words, known: &[&[u8]], role: Role) {
    let mut hint = Text::new(words.message.allocator());
    let (before, things, behind) = list_words(known.len(), role);
    hint.push(before);
    hint.push(things);
    hint.push(behind);
    push_quoted(&mut hint, known, " and ");
    words.add(hint);
}

// Adds what was meant by a name, or what is declared for the use.
fn hint_meant(alloc: Global, words: &mut Words, name: &[u8], known: &[&[u8]], role: Role) {
    match meant_by(alloc, name, known) {
        Ok(Some(meant)) => words.hint_of("did you mean `{}`?", &[meant]),
        Ok(None) => hint_list(words, known, role),
        Err(_) => words.cut(),
    }
}

const NO_HEAD_HERE: &str =
    "it is the record at byte 0, and no parent or structure of a pool or of a set";

/// That a name isn't declared as what it is used for.
pub fn say_unknown(alloc: Global, words: &mut Words, scene: &Scene<'_>, tree: &Tree) {
    let Some(name) = name_in(scene.found()) else {
        say_no_head(words, tree);
        return;
    };
    let role = role_of(scene, tree);
    if role == Role::Structure && name == b"Head".as_slice() {
        words.say("`Head` can't stand here");
        words.hint(NO_HEAD_HERE);
        return;
    }
    let is_other = say_undeclared(words, scene, tree, name, role);
    match candidates(alloc, scene, tree, role) {
        Ok(known) if is_other && known.is_empty() => {}
        Ok(known) => hint_meant(alloc, words, name, &known, role),
        Err(_) => words.cut(),
    }
}
