// The records that rules read, their fields, and what stands for them.
use crate::declared::{add_fields, head_of, named, own_field};
use crate::places::around;
use dsr_passages::{Declaration, Names, Scene};
use dsr_tree::{Binder, Constraint, NamedField, Premise, Rule, Set, Structure, Tree, Var, View};

/// The place of the token where the scene is; the text's start where it has none.
pub fn place_in(scene: &Scene<'_>) -> u64 {
    match scene.found() {
        Some(lexeme) => lexeme.place,
        None => 0,
    }
}

/// The structure that another one extends.
pub fn parent_of<'a>(tree: &'a Tree, structure: &Structure) -> Option<&'a Structure> {
    match &structure.parent {
        Some(parent) => named(tree.structures.items(), parent.name.bytes()),
        None => None,
    }
}

/// The field with this name that a structure declares or inherits.
pub fn field_of<'a>(
    tree: &'a Tree,
    structure: &'a Structure,
    name: &[u8],
) -> Option<&'a NamedField> {
    let mut owner = structure;
    // No structure has more ancestors than there are structures.
    for _step in tree.structures.items() {
        if let Some(field) = own_field(owner, name) {
            return Some(field);
        }
        owner = parent_of(tree, owner)?;
    }
    None
}

/// Adds the names of the fields that a structure declares or inherits.
pub fn add_all_fields<'a>(names: &mut Names<'a>, tree: &'a Tree, structure: &'a Structure) {
    let mut owner = structure;
    for _step in tree.structures.items() {
        add_fields(names, owner, false);
        match parent_of(tree, owner) {
            Some(parent) => owner = parent,
            None => return,
        }
    }
}

/// The structure by which a set's records are read.
pub fn structure_of<'a>(tree: &'a Tree, set: &Set) -> Option<&'a Structure> {
    if let Some(
        View::As {
            place: _,
            structure,
        },
    ) = &set.view
    {
        return named(tree.structures.items(), structure.name.bytes());
    }
    let pool = named(tree.pools.items(), set.pool.name.bytes())?;
    named(tree.structures.items(), pool.structure.name.bytes())
}

/// The structure by which a rule's record is read.
pub fn record_of<'a>(tree: &'a Tree, rule: &Rule) -> Option<&'a Structure> {
    match &rule.premise {
        Premise::Head { place: _ } => head_of(tree),
        Premise::Member { name: _, set } => {
            structure_of(tree, named(tree.sets.items(), set.name.bytes())?)
        }
    }
}

/// The field with this name of a rule's record.
pub fn read_field<'a>(tree: &'a Tree, rule: &Rule, name: &[u8]) -> Option<&'a NamedField> {
    field_of(tree, record_of(tree, rule)?, name)
}

/// The pool of a rule's record; none of the head.
pub fn pool_of<'a>(tree: &'a Tree, rule: &Rule) -> Option<&'a [u8]> {
    match &rule.premise {
        Premise::Head { place: _ } => None,
        Premise::Member { name: _, set } => {
            Some(
                named(tree.sets.items(), set.name.bytes())?
                    .pool
                    .name
                    .bytes(),
            )
        }
    }
}

/// The name of a rule's record.
pub fn record_name(rule: &Rule) -> &[u8] {
    match &rule.premise {
        Premise::Head { place: _ } => b"head",
        Premise::Member { name, set: _ } => name.name.bytes(),
    }
}

/// Whether `head` stands where a rule's record has a name.
pub fn is_other_head(rule: &Rule, var: &Var) -> bool {
    match var {
        Var::Head { place: _ } => match &rule.premise {
            Premise::Head { place: _ } => false,
            Premise::Member { name: _, set: _ } => true,
        },
        Var::Name(_) => false,
    }
}

/// The place of a variable.
pub fn place_of(var: &Var) -> u64 {
    match var {
        Var::Head { place } => *place,
        Var::Name(name) => name.place,
    }
}

// Adds the variables of a constraint that its quantifier names.
fn add_bound<'a>(names: &mut Names<'a>, constraint: &'a Constraint) {
    let Some(quantifier) = &constraint.quantifier else {
        return;
    };
    match &quantifier.binder {
        Binder::One(name) => names.push(name.name.bytes()),
        Binder::Pair {
            place: _,
            first,
            second,
        } => {
            names.push(first.name.bytes());
            names.push(second.name.bytes());
        }
    }
}

/// Adds the variables of the rule or the constraint in which the scene stands.
pub fn add_variables<'a>(names: &mut Names<'a>, scene: &Scene<'_>, tree: &'a Tree) {
    let (declaration, _) = scene.declaration();
    if declaration == Declaration::Rule {
        if let Some(rule) = around(tree.rules.items(), place_in(scene)) {
            names.push(record_name(rule));
        }
        return;
    }
    names.push(b"head");
    if let Some(constraint) = around(tree.constraints.items(), place_in(scene)) {
        add_bound(names, constraint);
    }
}
