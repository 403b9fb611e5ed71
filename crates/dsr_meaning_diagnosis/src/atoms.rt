// What is told of quantifiers and atoms that don't fit what they ask.
use crate::pairs::hint_related;
use dsr_declarations::named;
use dsr_passages::{Scene, Words, keyword_in, name_in, sign_in};
use dsr_tree::{Keyword, Lexeme, Relation, Sign, Tree};

// Whether an atom or a quantifier ends before a token.
fn ends(lexeme: &Lexeme) -> bool {
    match (sign_in(Some(lexeme)), keyword_in(Some(lexeme))) {
        (Some(Sign::Semicolon | Sign::Colon), _) => true,
        (_, Some(Keyword::And | Keyword::Or)) => true,
        _ => false,
    }
}

// The first relation that the atom or the quantifier at the place names.
fn relation_at<'a>(scene: &Scene<'_>, tree: &'a Tree) -> Option<&'a Relation> {
    for lexeme in scene.lexemes.get(scene.at..).unwrap_or(&[]) {
        if ends(lexeme) {
            return None;
        }
        if let Some(name) = name_in(Some(lexeme))
            && let Some(relation) = named(tree.relations.items(), name)
        {
            return Some(relation);
        }
    }
    None
}

const SIZE_HINT: &str =
    "`size` takes a set, a variable with a relation from its pool, or a relation with a variable of its second pool";

const VALUE_HINT: &str =
    "`x.R` is a value where R relates the pool of x to numbers; records are counted by `size(x.R)`";

const PAIR_HINT: &str =
    "`<x, y> in R` asks for x of the relation's first pool and y of its second one";

const SET_HINT: &str = "`x in S` asks for a set of the pool of x";

// What an atom asks for, by its first tokens.
fn atom_hint(scene: &Scene<'_>) -> &'static str {
    let found = scene.found();
    match (keyword_in(found), sign_in(found), sign_in(scene.behind(1))) {
        (Some(Keyword::Size), _, _) => SIZE_HINT,
        (_, Some(Sign::Less), _) => PAIR_HINT,
        (_, _, Some(Sign::Dot)) => VALUE_HINT,
        _ => SET_HINT,
    }
}

// Adds what the first relation at the place relates.
fn hint_relation(words: &mut Words, scene: &Scene<'_>, tree: &Tree) {
    if let Some(relation) = relation_at(scene, tree) {
        hint_related(words, relation);
    }
}

// That a quantifier runs over pairs with numbers.
fn say_quantifier(words: &mut Words, scene: &Scene<'_>, tree: &Tree) {
    words.say("`forall <x, y> in R` asks for a relation to records");
    hint_relation(words, scene, tree);
    words.hint("of a relation to numbers write `forall x in S : x.R <= 9`, or `head.R <= 9`");
}

/// That a quantifier or an atom doesn't fit what it asks.
pub fn say_atom(words: &mut Words, scene: &Scene<'_>, tree: &Tree) {
    match (keyword_in(scene.found()), keyword_in(scene.behind(1))) {
        (Some(Keyword::Forall), _) => say_quantifier(words, scene, tree),
        (Some(Keyword::Head), Some(Keyword::In)) => words.say("the head is in no set"),
        _ => {
            words.say("pools or kinds of values disagree here");
            hint_relation(words, scene, tree);
            words.hint(atom_hint(scene));
        }
    }
}
