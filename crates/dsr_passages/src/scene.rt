// The tokens round a place of a text.
ghost use Rattle.std.specs.Prelude.{◌≡◌, ◌≤◌, ◌<◌, ◌-◌, [], drop, length, take};

use dsr_lexer::{keyword_bytes, sign_bytes};
use dsr_tree::{Keyword, Lexeme, Sign, Token};

/// A kind of declaration.
#[derive(Clone, Copy, PartialEq, Eq)]
pub enum Declaration {
    /// The version and the order of bytes.
    Opening,
    Structure,
    Pool,
    Set,
    Relation,
    Fresh,
    Rule,
    Constraint,
}

/// A text with its tokens, and the number of one of them.
#[derive(Clone, Copy)]
pub struct Scene<'a> {
    pub text: &'a [u8],
    pub lexemes: &'a [Lexeme],
    /// How many tokens stand before the place.
    pub at: usize,
}

/// The bytes of a text from one place to another; none where the text ends before, or the second
/// place stands before the first one.
pub fn part(text: &[u8], from: usize, to: usize) -> &[u8]
    ensures within { from ≤ to → to ≤ length text.now
        → result.now ≡ take (to - from) (drop from text.now) }
    ensures before { to < from → result.now ≡ [] }
    ensures behind { length text.now < to → result.now ≡ [] }
{
    if to < from {
        return b"";
    }
    if text.len() < to {
        return b"";
    }
    &text[from..to]
}

/// The keyword that a token is.
pub fn keyword_in(lexeme: Option<&Lexeme>) -> Option<Keyword> {
    match &lexeme?.token {
        Token::Keyword(keyword) => Some(*keyword),
        _ => None,
    }
}

/// The sign that a token is.
pub fn sign_in(lexeme: Option<&Lexeme>) -> Option<Sign> {
    match &lexeme?.token {
        Token::Sign(sign) => Some(*sign),
        _ => None,
    }
}

/// The bytes of the name that a token is.
pub fn name_in(lexeme: Option<&Lexeme>) -> Option<&[u8]> {
    match &lexeme?.token {
        Token::Name(name) => Some(name.bytes()),
        _ => None,
    }
}

/// The number that a token is.
pub fn number_in(lexeme: Option<&Lexeme>) -> Option<u64> {
    match &lexeme?.token {
        Token::Number(number) => Some(*number),
        _ => None,
    }
}

// How many bytes a number's spelling has.
fn digits_len(text: &[u8]) -> usize {
    let is_hexadecimal = text.len() > 2 && text[0] == b'0' && text[1] == b'x';
    let mut len = 0;
    for (place, byte) in text.iter().enumerate() {
        let is_digit = byte.is_ascii_digit()
            || (is_hexadecimal && (place == 1 || byte.is_ascii_hexdigit()));
        if !is_digit {
            return len;
        }
        len = place.saturating_add(1);
    }
    len
}

/// How many bytes a token has in its text.
pub fn length_of(text: &[u8], lexeme: &Lexeme) -> usize {
    match &lexeme.token {
        Token::Keyword(keyword) => keyword_bytes(*keyword).len(),
        Token::Sign(sign) => sign_bytes(*sign).len(),
        Token::Name(name) => name.bytes().len(),
        Token::Number(_) => digits_len(part(text, lexeme.place as usize, text.len())),
    }
}

/// The declaration that a keyword begins.
pub fn begun_by(keyword: Keyword) -> Option<Declaration> {
    match keyword {
        Keyword::Structure => Some(Declaration::Structure),
        Keyword::Pool => Some(Declaration::Pool),
        Keyword::Set => Some(Declaration::Set),
        Keyword::Relation => Some(Declaration::Relation),
        Keyword::Fresh => Some(Declaration::Fresh),
        Keyword::Rule => Some(Declaration::Rule),
        Keyword::Constraint => Some(Declaration::Constraint),
        _ => None,
    }
}

// Whether a declaration may begin behind this token.
fn is_end(lexeme: &Lexeme) -> bool {
    matches!(
        &lexeme.token,
        Token::Sign(Sign::Semicolon) | Token::Sign(Sign::CloseBrace)
    )
}

/// How many tokens stand before a place.
pub fn count_before(lexemes: &[Lexeme], place: u64) -> usize {
    lexemes
        .iter()
        .take_while(|lexeme| lexeme.place < place)
        .count()
}

impl<'a> Scene<'a> {
    /// The token at the place; none at the text's end.
    pub fn found(&self) -> Option<&'a Lexeme> {
        self.lexemes.get(self.at)
    }

    /// The token so many steps before the place.
    pub fn before(&self, steps: usize) -> Option<&'a Lexeme> {
        self.lexemes.get(self.at.checked_sub(steps)?)
    }

    /// The token so many steps behind the place.
    pub fn behind(&self, steps: usize) -> Option<&'a Lexeme> {
        self.lexemes.get(self.at.checked_add(steps)?)
    }

    /// Whether the text is of version 2.
    pub fn is_second(&self) -> bool {
        number_in(self.lexemes.get(1)) == Some(2)
    }

    /// The declaration in which the place stands, and the number of its first token.
    pub fn declaration(&self) -> (Declaration, usize) {
        let mut begun = (Declaration::Opening, 0);
        let mut may_begin = true;
        for (number, lexeme) in self.lexemes.iter().enumerate() {
            if number > self.at {
                return begun;
            }
            if let Token::Keyword(keyword) = &lexeme.token
                && may_begin
                && let Some(declaration) = begun_by(*keyword)
            {
                begun = (declaration, number);
            }
            may_begin = is_end(lexeme);
        }
        begun
    }
}
