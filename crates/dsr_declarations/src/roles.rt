// What a name is used for, by the tokens round it.
use crate::declared::{add_fields, add_named, add_plain_sets, add_structures, head_of, named};
use crate::places::around;
use crate::records::{add_all_fields, add_variables, place_in, record_of};
use dsr_ir::NoMemory;
use dsr_passages::{Declaration, Names, Scene, keyword_in, name_in, sign_in};
use dsr_tree::{Keyword, Sign, Tree};
use std::alloc::Global;

/// What a name is used for.
#[derive(Clone, Copy, PartialEq, Eq)]
pub enum Role {
    /// A parent, or the structure of a pool or of a set.
    Structure,
    Pool,
    /// A field in an expression.
    FixedField,
    /// A set that may be a complement.
    Set,
    /// A set that may be none.
    PlainSet,
    Relation,
    /// A field of a rule's record.
    Field,
    Variable,
    /// The first of two words of which a size is asked.
    Measured,
}

fn structure_role(before: Option<Keyword>, sign: Option<Sign>) -> Role {
    match before {
        Some(Keyword::Extends) => Role::Structure,
        _ if sign == Some(Sign::Arrow) => Role::Pool,
        _ => Role::FixedField,
    }
}

fn set_role(before: Option<Keyword>) -> Role {
    match before {
        Some(Keyword::As) => Role::Structure,
        Some(Keyword::Except) => Role::PlainSet,
        _ => Role::Pool,
    }
}

// What stands behind `in` in a rule: a relation behind a pair, an array behind an index, or a set.
fn given_role(scene: &Scene<'_>) -> Role {
    if sign_in(scene.before(2)) == Some(Sign::Greater) {
        return Role::Relation;
    }
    if sign_in(scene.before(3)) == Some(Sign::Comma) {
        return Role::Field;
    }
    Role::PlainSet
}

fn rule_role(scene: &Scene<'_>, before: Option<Keyword>, sign: Option<Sign>) -> Role {
    if before == Some(Keyword::In) {
        return given_role(scene);
    }
    if before == Some(Keyword::Pool) {
        return Role::Pool;
    }
    if sign == Some(Sign::Dot) {
        return Role::Field;
    }
    if sign != Some(Sign::OpenBracket) && sign_in(scene.behind(1)) == Some(Sign::OpenBracket) {
        return Role::Pool;
    }
    Role::Variable
}

// Whether the place is the second word of a size of a relation's sources.
fn is_source(scene: &Scene<'_>, tree: &Tree) -> bool {
    let Some(first) = name_in(scene.before(2)) else {
        return false;
    };
    keyword_in(scene.before(4)) == Some(Keyword::Size)
        && named(tree.relations.items(), first).is_some()
}

// The first word of which a size is asked.
fn size_role(scene: &Scene<'_>) -> Role {
    if sign_in(scene.behind(1)) == Some(Sign::Dot) {
        return Role::Measured;
    }
    Role::Set
}

fn constraint_role(
    scene: &Scene<'_>,
    tree: &Tree,
    before: Option<Keyword>,
    sign: Option<Sign>,
) -> Role {
    if before == Some(Keyword::In) {
        return if sign_in(scene.before(2)) == Some(Sign::Greater) {
            Role::Relation
        } else {
            Role::Set
        };
    }
    if sign == Some(Sign::Dot) {
        return if is_source(scene, tree) {
            Role::Variable
        } else {
            Role::Relation
        };
    }
    if keyword_in(scene.before(2)) == Some(Keyword::Size) {
        return size_role(scene);
    }
    Role::Variable
}

/// What the name at the place is used for.
pub fn role_of(scene: &Scene<'_>, tree: &Tree) -> Role {
    let last = scene.before(1);
    let (before, sign) = (keyword_in(last), sign_in(last));
    let (declaration, _) = scene.declaration();
    match declaration {
        Declaration::Opening | Declaration::Structure => structure_role(before, sign),
        Declaration::Pool if sign == Some(Sign::Colon) => Role::Structure,
        Declaration::Pool => Role::FixedField,
        Declaration::Set => set_role(before),
        Declaration::Relation => Role::Pool,
        Declaration::Fresh if before == Some(Keyword::Fresh) => Role::Pool,
        Declaration::Fresh => Role::PlainSet,
        Declaration::Rule => rule_role(scene, before, sign),
        Declaration::Constraint => constraint_role(scene, tree, before, sign),
    }
}

// Adds the names of the fixed fields that the head declares.
fn add_fixed<'a>(names: &mut Names<'a>, tree: &'a Tree) {
    if let Some(head) = head_of(tree) {
        add_fields(names, head, true);
    }
}

// Adds the names of the fields of the record that a rule reads.
fn add_read<'a>(names: &mut Names<'a>, scene: &Scene<'_>, tree: &'a Tree) {
    if let Some(rule) = around(tree.rules.items(), place_in(scene))
        && let Some(structure) = record_of(tree, rule)
    {
        add_all_fields(names, tree, structure);
    }
}

/// What is declared for this use.
pub fn candidates<'a>(
    alloc: Global,
    scene: &Scene<'_>,
    tree: &'a Tree,
    role: Role,
) -> Result<Vec<&'a [u8]>, NoMemory> {
    let mut names = Names::new(alloc);
    match role {
        Role::Structure => add_structures(&mut names, tree),
        Role::Pool => add_named(&mut names, tree.pools.items()),
        Role::FixedField => add_fixed(&mut names, tree),
        Role::Set => add_named(&mut names, tree.sets.items()),
        Role::PlainSet => add_plain_sets(&mut names, tree.sets.items()),
        Role::Relation => add_named(&mut names, tree.relations.items()),
        Role::Field => add_read(&mut names, scene, tree),
        Role::Variable => add_variables(&mut names, scene, tree),
        Role::Measured => {
            add_variables(&mut names, scene, tree);
            add_named(&mut names, tree.relations.items());
        }
    }
    names.whole()
}

/// The use, in words.
pub fn in_words(role: Role) -> &'static str {
    match role {
        Role::Structure => "structure",
        Role::Pool => "pool",
        Role::FixedField => "fixed field of `Head`",
        Role::Set | Role::PlainSet => "set",
        Role::Relation => "relation",
        Role::Field => "field of this record",
        Role::Variable => "variable",
        Role::Measured => "variable or relation",
    }
}

/// One of the use, in words that leave none of it out.
pub fn one_in_words(role: Role) -> &'static str {
    match role {
        Role::PlainSet => "set that is no complement",
        _ => in_words(role),
    }
}

/// More than one of the use, in words.
pub fn many_in_words(role: Role) -> &'static str {
    match role {
        Role::Structure => "structures",
        Role::Pool => "pools",
        Role::FixedField => "fixed fields of `Head`",
        Role::Set => "sets",
        Role::PlainSet => "sets that are no complements",
        Role::Relation => "relations",
        Role::Field => "fields of this record",
        Role::Variable => "variables here",
        Role::Measured => "variables and relations",
    }
}
