// How keywords and signs are spelled.
ghost use Rattle.std.specs.Prelude.{◌≡◌};
ghost use Rattle.dsr_syntax_theory.specs.Tokens.{is_keyword, keyword_spelling, sign_spelling};
ghost use Rattle.dsr_lexer.specs.Spelled.{
  candidates,
  keyword_among,
  keywords_from,
  sign_among,
  FindsKeyword,
  FindsSign,
};

use dsr_tree::{Keyword, Sign};

const LONG_SIGNS: [Sign; 5] = [
    Sign::Arrow,
    Sign::Gives,
    Sign::Differs,
    Sign::AtMost,
    Sign::AtLeast,
];

const SHORT_SIGNS: [Sign; 17] = [
    Sign::Semicolon,
    Sign::Colon,
    Sign::Comma,
    Sign::Dot,
    Sign::OpenBrace,
    Sign::CloseBrace,
    Sign::OpenBracket,
    Sign::CloseBracket,
    Sign::OpenParenthesis,
    Sign::CloseParenthesis,
    Sign::Plus,
    Sign::Minus,
    Sign::Times,
    Sign::Over,
    Sign::Equal,
    Sign::Less,
    Sign::Greater,
];

pub fn keyword_bytes(keyword: Keyword) -> &'static [u8]
    ensures { result.now ≡ keyword_spelling keyword }
{
    match keyword {
        Keyword::Version => b"version",
        Keyword::Order => b"order",
        Keyword::Little => b"little",
        Keyword::Big => b"big",
        Keyword::Structure => b"structure",
        Keyword::Extends => b"extends",
        Keyword::Fixed => b"fixed",
        Keyword::U8 => b"u8",
        Keyword::U16 => b"u16",
        Keyword::U32 => b"u32",
        Keyword::U64 => b"u64",
        Keyword::Bits => b"bits",
        Keyword::Init => b"init",
        Keyword::Skip => b"skip",
        Keyword::Pool => b"pool",
        Keyword::Slot => b"slot",
        Keyword::At => b"at",
        Keyword::Codes => b"codes",
        Keyword::Step => b"step",
        Keyword::None => b"none",
        Keyword::Set => b"set",
        Keyword::Of => b"of",
        Keyword::As => b"as",
        Keyword::Except => b"except",
        Keyword::Relation => b"relation",
        Keyword::Head => b"head",
        Keyword::Number => b"number",
        Keyword::Fresh => b"fresh",
        Keyword::Avoid => b"avoid",
        Keyword::Rule => b"rule",
        Keyword::In => b"in",
        Keyword::When => b"when",
        Keyword::And => b"and",
        Keyword::Legal => b"legal",
        Keyword::Illegal => b"illegal",
        Keyword::Some => b"some",
        Keyword::Constraint => b"constraint",
        Keyword::Forall => b"forall",
        Keyword::Or => b"or",
        Keyword::Not => b"not",
        Keyword::Given => b"given",
        Keyword::Size => b"size",
    }
}

pub fn sign_bytes(sign: Sign) -> &'static [u8]
    ensures { result.now ≡ sign_spelling sign }
{
    match sign {
        Sign::Semicolon => b";",
        Sign::Colon => b":",
        Sign::Comma => b",",
        Sign::Dot => b".",
        Sign::OpenBrace => b"{",
        Sign::CloseBrace => b"}",
        Sign::OpenBracket => b"[",
        Sign::CloseBracket => b"]",
        Sign::OpenParenthesis => b"(",
        Sign::CloseParenthesis => b")",
        Sign::Arrow => b"->",
        Sign::Gives => b"=>",
        Sign::Plus => b"+",
        Sign::Minus => b"-",
        Sign::Times => b"*",
        Sign::Over => b"/",
        Sign::Equal => b"=",
        Sign::Differs => b"!=",
        Sign::Less => b"<",
        Sign::AtMost => b"<=",
        Sign::Greater => b">",
        Sign::AtLeast => b">=",
    }
}

// The keywords that begin with this letter.
fn keywords_from(letter: u8) -> &'static [Keyword]
    ensures { result.now ≡ keywords_from letter }
{
    match letter {
        b'a' => &[Keyword::At, Keyword::As, Keyword::Avoid, Keyword::And],
        b'b' => &[Keyword::Big, Keyword::Bits],
        b'c' => &[Keyword::Codes, Keyword::Constraint],
        b'e' => &[Keyword::Extends, Keyword::Except],
        b'f' => &[Keyword::Fixed, Keyword::Fresh, Keyword::Forall],
        b'g' => &[Keyword::Given],
        b'h' => &[Keyword::Head],
        b'i' => &[Keyword::Init, Keyword::In, Keyword::Illegal],
        b'l' => &[Keyword::Little, Keyword::Legal],
        b'n' => &[Keyword::None, Keyword::Number, Keyword::Not],
        b'o' => &[Keyword::Order, Keyword::Of, Keyword::Or],
        b'p' => &[Keyword::Pool],
        b'r' => &[Keyword::Relation, Keyword::Rule],
        b's' => &[
            Keyword::Structure,
            Keyword::Skip,
            Keyword::Slot,
            Keyword::Step,
            Keyword::Set,
            Keyword::Some,
            Keyword::Size,
        ],
        b'u' => &[Keyword::U8, Keyword::U16, Keyword::U32, Keyword::U64],
        b'v' => &[Keyword::Version],
        b'w' => &[Keyword::When],
        _ => &[],
    }
}

// The keywords that begin as the word does.
fn candidates(word: &[u8]) -> &'static [Keyword]
    ensures { result.now ≡ candidates word.now }
{
    match word {
        [] => &[],
        [letter, ..] => keywords_from(*letter),
    }
}

fn find_among(keywords: &[Keyword], word: &[u8]) -> Option<Keyword>
    ensures { result ≡ keyword_among keywords.now word.now }
{
    for keyword in keywords {
        if keyword_bytes(*keyword) == word {
            return Some(*keyword);
        }
    }
    None
}

// Whether a word is a keyword in a text of version 2, or of version 1.
fn is_keyword_of(keyword: Keyword, second: bool) -> bool
    ensures { result ≡ is_keyword second keyword }
{
    second || keyword != Keyword::Except
}

/// The keyword with this spelling, where it is one; `except` is one only in a text of version 2.
pub fn find_keyword(word: &[u8], second: bool) -> Option<Keyword>
    ensures { FindsKeyword second word.now result }
{
    let keyword = find_among(candidates(word), word)?;
    if is_keyword_of(keyword, second) {
        Some(keyword)
    } else {
        None
    }
}

fn find_front(signs: &[Sign], bytes: &[u8]) -> Option<Sign>
    ensures { result ≡ sign_among signs.now bytes.now }
{
    for sign in signs {
        if bytes.starts_with(sign_bytes(*sign)) {
            return Some(*sign);
        }
    }
    None
}

/// The longest sign at the front.
pub fn find_sign(bytes: &[u8]) -> Option<Sign>
    ensures { FindsSign bytes.now result }
{
    match find_front(&LONG_SIGNS, bytes) {
        Some(sign) => Some(sign),
        None => find_front(&SHORT_SIGNS, bytes),
    }
}
