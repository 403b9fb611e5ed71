// What the declarations of a tree name.
ghost use Rattle.std.specs.Prelude.{◌≡◌, option_map};
ghost use Rattle.dsr_declarations.specs.Finding.{first_named};
ghost use Rattle.dsr_language_theory.specs.Names as names;
ghost use Rattle.dsr_names.specs.Tables.{is_named};

use dsr_names::Named;
use dsr_passages::Names;
use dsr_tree::{Content, Field, NamedField, Set, Structure, Tree, View};

// Whether an item has this name.
fn is_named<T: Named>(item: &T, name: &[u8]) -> bool
    ensures { result ≡ is_named (T.own_name item.now) name.now }
{
    match item.own_name() {
        Some(own) => own.bytes() == name,
        None => false,
    }
}

/// The first of some declarations with this name.
pub fn named<'a, T: Named>(items: &'a [T], name: &[u8]) -> Option<&'a T>
    ensures { option_map (λ item. item.now) result ≡ first_named T.own_name name.now items.now }
{
    for item in items {
        if is_named(item, name) {
            return Some(item);
        }
    }
    None
}

/// The structure of the head.
pub fn head_of(tree: &Tree) -> Option<&Structure> {
    named(tree.structures.items(), b"Head")
}

/// Whether a structure is the one of the head.
pub fn is_head(structure: &Structure) -> bool
    ensures { result ≡ names.is_head structure.now.name.name }
{
    structure.name.name.bytes() == b"Head".as_slice()
}

/// Whether a set is a complement.
pub fn is_complement(set: &Set) -> bool {
    matches!(&set.view, Some(View::Except { place: _, set: _ }))
}

/// The field with this name that a structure declares.
pub fn own_field<'a>(structure: &'a Structure, name: &[u8]) -> Option<&'a NamedField> {
    match named(structure.fields.items(), name) {
        Some(Field::Named(field)) => Some(field),
        _ => None,
    }
}

/// The first structure that declares a field with this name.
pub fn owner_of<'a>(tree: &'a Tree, name: &[u8]) -> Option<&'a Structure> {
    for structure in tree.structures.items() {
        if own_field(structure, name).is_some() {
            return Some(structure);
        }
    }
    None
}

/// The pool to which a field leads; none of a number.
pub fn target_of(field: &NamedField) -> Option<&[u8]> {
    match &field.content {
        Some(Content::Refers { place: _, pool }) => Some(pool.name.bytes()),
        _ => None,
    }
}

/// What a name is declared as.
#[derive(Clone, Copy, PartialEq, Eq)]
pub enum Declared {
    Pool,
    Set,
    Complement,
    Relation,
    Structure,
    Field,
}

impl Declared {
    /// The same in words.
    pub fn in_words(self) -> &'static str {
        match self {
            Declared::Pool => "a pool",
            Declared::Set => "a set",
            Declared::Complement => "a complement",
            Declared::Relation => "a relation",
            Declared::Structure => "a structure",
            Declared::Field => "a field",
        }
    }
}

// What a set is declared as.
fn declared_set(set: &Set) -> Declared {
    if is_complement(set) {
        Declared::Complement
    } else {
        Declared::Set
    }
}

/// What a name is declared as.
pub fn declared_as(tree: &Tree, name: &[u8]) -> Option<Declared> {
    if named(tree.pools.items(), name).is_some() {
        return Some(Declared::Pool);
    }
    if let Some(set) = named(tree.sets.items(), name) {
        return Some(declared_set(set));
    }
    if named(tree.relations.items(), name).is_some() {
        return Some(Declared::Relation);
    }
    if named(tree.structures.items(), name).is_some() {
        return Some(Declared::Structure);
    }
    match owner_of(tree, name) {
        Some(_) => Some(Declared::Field),
        None => None,
    }
}

/// Adds the names of the structures that can be a parent, a pool's or a set's.
pub fn add_structures<'a>(names: &mut Names<'a>, tree: &'a Tree) {
    for structure in tree.structures.items() {
        if !is_head(structure) {
            names.push(structure.name.name.bytes());
        }
    }
}

/// Adds the names of declarations.
pub fn add_named<'a, T: Named>(names: &mut Names<'a>, items: &'a [T]) {
    for item in items {
        if let Some(name) = item.own_name() {
            names.push(name.bytes());
        }
    }
}

/// Adds the names of the sets that are no complements.
pub fn add_plain_sets<'a>(names: &mut Names<'a>, sets: &'a [Set]) {
    for set in sets {
        if !is_complement(set) {
            names.push(set.name.name.bytes());
        }
    }
}

/// Adds the names of the fields that a structure declares, or of the fixed ones alone.
pub fn add_fields<'a>(names: &mut Names<'a>, structure: &'a Structure, fixed: bool) {
    for field in structure.fields.items() {
        if let Field::Named(named) = field
            && (!fixed || named.fixed.is_some())
        {
            names.push(named.name.name.bytes());
        }
    }
}
