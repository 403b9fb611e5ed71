// What is told of pairs that rules give to relations of other pools or kinds.
use crate::guards::say_other_head;
use crate::members::{hint_field, hint_record};
use dsr_declarations::{is_other_head, named, read_field};
use dsr_passages::Words;
use dsr_tree::{Path, Relation, Rule, Target, Term, Tree, Var};

/// Adds what a relation relates.
pub fn hint_related(words: &mut Words, relation: &Relation) {
    let name = relation.name.name.bytes();
    let source = match &relation.source {
        Var::Head { place: _ } => b"head",
        Var::Name(pool) => pool.name.bytes(),
    };
    match &relation.target {
        Target::Number { place: _ } => {
            words.hint_of("`{}` relates `{}` to numbers", &[name, source]);
        }
        Target::Pool(pool) => {
            let names = [name, source, pool.name.bytes()];
            words.hint_of("`{}` relates `{}` to records of `{}`", &names);
        }
    }
}

// Whether `head` stands where a rule's record has a name.
fn has_other_head(rule: &Rule, term: &Term, path: &Path) -> bool {
    match term {
        Term::Head { place } => is_other_head(rule, &Var::Head { place: *place }),
        Term::Named { name: _, index: _ } => is_other_head(rule, &path.var),
    }
}

// Whether a slot stands before a field that isn't read at the index.
fn is_slot_alone(tree: &Tree, rule: &Rule, term: &Term, path: &Path) -> bool {
    let Term::Named {
        name: _,
        index: Some(_),
    } = term
    else {
        return false;
    };
    match read_field(tree, rule, path.field.name.bytes()) {
        Some(field) => path.index.is_none() && field.length.is_none(),
        None => false,
    }
}

// Adds what the first part of a pair is.
fn hint_source(words: &mut Words, tree: &Tree, rule: &Rule, term: &Term) {
    match term {
        Term::Head { place: _ } => words.hint("the first part is the head"),
        Term::Named {
            name,
            index: Some(_),
        } => {
            words.hint_of(
                "the first part is a slot of the pool `{}`",
                &[name.name.bytes()],
            );
        }
        Term::Named { name, index: None } => hint_record(words, tree, rule, name.name.bytes()),
    }
}

/// That a pair that a rule gives isn't one of the relation.
pub fn say_pair(
    words: &mut Words,
    tree: &Tree,
    rule: &Rule,
    term: &Term,
    path: &Path,
    relation: &[u8],
) {
    if has_other_head(rule, term, path) {
        say_other_head(words, rule);
        return;
    }
    if is_slot_alone(tree, rule, term, path) {
        words.say("behind a slot stands a field that is read at the index");
        words.hint("write `<p[k], x.f[k]> in R` for an array f, or `<x, x.f> in R`");
        return;
    }
    words.say("this pair isn't one of the relation");
    if let Some(relation) = named(tree.relations.items(), relation) {
        hint_related(words, relation);
    }
    hint_source(words, tree, rule, term);
    hint_field(words, tree, rule, path.field.name.bytes());
}
