// What may help with a token that can't stand at its place.
use crate::expected::Expected;
use crate::foreign::{instead_of, name_for, phrase_for};
use crate::tokens::place_of;
use dsr_ir::NoMemory;
use dsr_lexer::keyword_bytes;
use dsr_passages::{
    Declaration, Scene, Words, begun_by, is_near, keyword_in, line_of, name_in, sign_in,
};
use dsr_tree::{Keyword, Lexeme, Sign};
use dsr_wording::Text;
use std::alloc::Global;

// Whether the second token begins one byte behind the place of the first one.
fn are_together(first: Option<&Lexeme>, second: Option<&Lexeme>) -> bool {
    match (first, second) {
        (Some(first), Some(second)) => second.place.saturating_sub(first.place) == 1,
        _ => false,
    }
}

// What two neighbouring signs were to mean, which are written otherwise here than in other
// languages.
fn pair_hint(first: Option<&Lexeme>, second: Option<&Lexeme>) -> Option<&'static str> {
    if !are_together(first, second) {
        return None;
    }
    match (sign_in(first)?, sign_in(second)?) {
        (Sign::Equal, Sign::Equal) => Some("equality is written `=`"),
        (Sign::Over, Sign::Over) => Some("a comment begins with `#`"),
        (Sign::Over, Sign::Times) => Some("a comment begins with `#`, and ends with its line"),
        (Sign::Minus, Sign::Minus) => Some("a comment begins with `#`"),
        (Sign::Equal, Sign::Less) => Some("at most is written `<=`"),
        (Sign::Less, Sign::Greater) => Some("different is written `!=`"),
        (Sign::Plus, Sign::Plus) => Some("there are no assignments"),
        (Sign::Colon, Sign::Colon) => Some("one `:` is enough"),
        (Sign::Times, Sign::Times) => Some("there are no powers: write the number"),
        _ => None,
    }
}

// What an operator was to compute.
fn operator_hint(declaration: Declaration, expected: &Expected) -> Option<&'static str> {
    if expected.number {
        return Some("numbers are not below 0");
    }
    match declaration {
        Declaration::Rule => Some("rules compute nothing: a field is compared with a number"),
        Declaration::Constraint => Some(
            "constraints compute nothing: a value is compared with a number or a size",
        ),
        _ => None,
    }
}

// What a sign was to mean.
fn sign_hint(
    declaration: Declaration,
    found: Option<&Lexeme>,
    expected: &Expected,
) -> Option<&'static str> {
    match sign_in(found)? {
        Sign::Gives if expected.has_sign(Sign::AtLeast) => Some("at least is written `>=`"),
        Sign::Gives if expected.has_sign(Sign::Arrow) => {
            Some("where a reference or a relation leads stands behind `->`")
        }
        Sign::Arrow if expected.has_sign(Sign::Gives) => {
            Some("what a rule gives stands behind `=>`")
        }
        Sign::Equal if expected.has_keyword(Keyword::Init) => {
            Some("the value after a reset stands behind `init`")
        }
        Sign::Comma if declaration == Declaration::Structure => Some("each field ends with `;`"),
        Sign::Plus | Sign::Minus | Sign::Times | Sign::Over => {
            operator_hint(declaration, expected)
        }
        _ => None,
    }
}

// A keyword that was meant by a name.
fn meant_keyword(
    alloc: Global,
    word: &[u8],
    expected: &Expected,
) -> Result<Option<&'static [u8]>, NoMemory> {
    for keyword in &expected.keywords {
        let meant = keyword_bytes(*keyword);
        if is_near(alloc, word, meant)? {
            return Ok(Some(meant));
        }
    }
    Ok(None)
}

// Adds what was meant by a name that can't stand at its place; tells whether that is known.
fn hint_name(alloc: Global, words: &mut Words, word: &[u8], expected: &Expected) -> bool {
    if let Some(hint) = instead_of(word, expected) {
        words.hint(hint);
        return true;
    }
    match meant_keyword(alloc, word, expected) {
        Ok(Some(meant)) => {
            words.hint_of("did you mean `{}`?", &[meant]);
            true
        }
        Ok(None) => false,
        Err(_) => {
            words.cut();
            true
        }
    }
}

const NO_NAME: &str = "`{}` is a keyword, and no keyword can be a name";

const NO_NAME_BUT: &str = "`{}` is a keyword, and no keyword can be a name: write {}, say";

// Adds that a keyword can't be a name.
fn hint_no_name(words: &mut Words, keyword: Keyword) {
    let word = keyword_bytes(keyword);
    match name_for(word) {
        Some(instead) => words.hint_of(NO_NAME_BUT, &[word, instead.as_bytes()]),
        None => words.hint_of(NO_NAME, &[word]),
    }
}

const ORDER_OF_KINDS: &str =
    "declarations stand in this order: structures, pools, sets, relations, supplies (`fresh`), rules, constraints";

const FORALL: &str = "one `forall` stands in a constraint, in front of its formula";

const MEMBERS: &str = "for what x leads to by R write `forall <x, y> in R : y in S`";

// Whether what stands before the place is a field or a relation behind its variable.
fn is_behind_path(scene: &Scene<'_>) -> bool {
    name_in(scene.before(1)).is_some() && sign_in(scene.before(2)) == Some(Sign::Dot)
}

// Why a keyword can't stand at its place.
fn keyword_hint(scene: &Scene<'_>, keyword: Keyword, expected: &Expected) -> Option<&'static str> {
    if expected.has_keyword(Keyword::Constraint) {
        begun_by(keyword)?;
        return Some(ORDER_OF_KINDS);
    }
    let (declaration, _) = scene.declaration();
    if keyword == Keyword::Forall && expected.has_keyword(Keyword::Not) {
        return Some(FORALL);
    }
    if keyword == Keyword::In && declaration == Declaration::Constraint && is_behind_path(scene) {
        return Some(MEMBERS);
    }
    None
}

// Whether a name may stand at the place, and neither an expression nor a formula begins there.
fn is_for_names(expected: &Expected) -> bool {
    let is_in_list = expected.has_keyword(Keyword::Constraint);
    expected.name && !expected.number && !expected.has_keyword(Keyword::Not) && !is_in_list
}

// Adds why a keyword can't stand at its place; tells whether that is known.
fn hint_keyword(
    words: &mut Words,
    scene: &Scene<'_>,
    keyword: Keyword,
    expected: &Expected,
) -> bool {
    if let Some(hint) = keyword_hint(scene, keyword, expected) {
        words.hint(hint);
        return true;
    }
    let is_name = is_for_names(expected);
    if is_name {
        hint_no_name(words, keyword);
    }
    is_name
}

// What a word of another language in front of the place was to mean.
fn phrase_hint(scene: &Scene<'_>) -> Option<&'static str> {
    let (declaration, _) = scene.declaration();
    if declaration != Declaration::Constraint || is_behind_path(scene) {
        return None;
    }
    phrase_for(name_in(scene.before(1))?)
}

// What the signs round the place were to mean.
fn signs_hint(scene: &Scene<'_>, expected: &Expected) -> Option<&'static str> {
    let found = scene.found();
    if let Some(hint) = pair_hint(scene.before(1), found) {
        return Some(hint);
    }
    if let Some(hint) = pair_hint(found, scene.behind(1)) {
        return Some(hint);
    }
    let (declaration, _) = scene.declaration();
    sign_hint(declaration, found, expected)
}

const OPENING: &str = "a text begins as `version 1; order little;`";

// Adds what the word at the place was to mean; tells whether that is known.
fn hint_word(alloc: Global, words: &mut Words, scene: &Scene<'_>, expected: &Expected) -> bool {
    let found = scene.found();
    match (name_in(found), keyword_in(found)) {
        (Some(word), _) => hint_name(alloc, words, word, expected),
        (None, Some(keyword)) => hint_keyword(words, scene, keyword, expected),
        (None, None) => false,
    }
}

/// Adds what may help with the token at the place.
pub fn hint_token(alloc: Global, words: &mut Words, scene: &Scene<'_>, expected: &Expected) {
    if let Some(hint) = signs_hint(scene, expected) {
        words.hint(hint);
        return;
    }
    if let Some(hint) = phrase_hint(scene) {
        words.hint(hint);
        return;
    }
    // The version and the order stand before the seventh token.
    if !hint_word(alloc, words, scene, expected) && scene.at < 6 {
        words.hint(OPENING);
    }
}

// Whether the text ends at the place, or a declaration begins there.
fn is_behind_declaration(scene: &Scene<'_>) -> bool {
    let found = scene.found();
    match keyword_in(found) {
        Some(keyword) => begun_by(keyword).is_some(),
        None => found.is_none(),
    }
}

// The sign that may be missing before the place.
fn missing(scene: &Scene<'_>, expected: &Expected) -> Option<&'static str> {
    if expected.has_sign(Sign::Semicolon) {
        return Some(";");
    }
    if expected.has_sign(Sign::CloseBrace) && is_behind_declaration(scene) {
        return Some("}");
    }
    None
}

/// Adds that a line ends without the sign that ends what it says, where that is so.
pub fn hint_end(words: &mut Words, scene: &Scene<'_>, expected: &Expected) {
    let Some(last) = scene.before(1) else {
        return;
    };
    let line = line_of(scene.text, last.place);
    let place = place_of(scene, scene.found()) as u64;
    if line == line_of(scene.text, place) {
        return;
    }
    if let Some(sign) = missing(scene, expected) {
        let mut hint = Text::new(words.message.allocator());
        hint.fill("is a `{}` missing at the end of line ", &[sign.as_bytes()]);
        hint.number(line as u64);
        hint.push("?");
        words.add(hint);
    }
}
