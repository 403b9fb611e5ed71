// The tokens of texts.
use dsr_parse::{TokenFault, tokens};
use dsr_test_text::Lines;
use dsr_tree::{Keyword, Lexeme, Sign, Token};
use std::alloc::Global;

fn keyword_word(keyword: Keyword) -> &'static str {
    match keyword {
        Keyword::Version => "version",
        Keyword::Order => "order",
        Keyword::Little => "little",
        Keyword::Big => "big",
        Keyword::Structure => "structure",
        Keyword::Extends => "extends",
        Keyword::Fixed => "fixed",
        Keyword::U8 => "u8",
        Keyword::U16 => "u16",
        Keyword::U32 => "u32",
        Keyword::U64 => "u64",
        Keyword::Bits => "bits",
        Keyword::Init => "init",
        Keyword::Skip => "skip",
        Keyword::Pool => "pool",
        Keyword::Slot => "slot",
        Keyword::At => "at",
        Keyword::Codes => "codes",
        Keyword::Step => "step",
        Keyword::None => "none",
        Keyword::Set => "set",
        Keyword::Of => "of",
        Keyword::As => "as",
        Keyword::Except => "except",
        Keyword::Relation => "relation",
        Keyword::Head => "head",
        Keyword::Number => "number",
        Keyword::Fresh => "fresh",
        Keyword::Avoid => "avoid",
        Keyword::Rule => "rule",
        Keyword::In => "in",
        Keyword::When => "when",
        Keyword::And => "and",
        Keyword::Legal => "legal",
        Keyword::Illegal => "illegal",
        Keyword::Some => "some",
        Keyword::Constraint => "constraint",
        Keyword::Forall => "forall",
        Keyword::Or => "or",
        Keyword::Not => "not",
        Keyword::Given => "given",
        Keyword::Size => "size",
    }
}

fn sign_word(sign: Sign) -> &'static str {
    match sign {
        Sign::Semicolon => "semicolon",
        Sign::Colon => "colon",
        Sign::Comma => "comma",
        Sign::Dot => "dot",
        Sign::OpenBrace => "open brace",
        Sign::CloseBrace => "close brace",
        Sign::OpenBracket => "open bracket",
        Sign::CloseBracket => "close bracket",
        Sign::OpenParenthesis => "open parenthesis",
        Sign::CloseParenthesis => "close parenthesis",
        Sign::Arrow => "arrow",
        Sign::Gives => "gives",
        Sign::Plus => "plus",
        Sign::Minus => "minus",
        Sign::Times => "times",
        Sign::Over => "over",
        Sign::Equal => "equal",
        Sign::Differs => "differs",
        Sign::Less => "less",
        Sign::AtMost => "at most",
        Sign::Greater => "greater",
        Sign::AtLeast => "at least",
    }
}

// A token behind its place.
fn add_token(lines: &mut Lines, lexeme: &Lexeme) {
    lines.part("  ", lexeme.place);
    match &lexeme.token {
        Token::Keyword(keyword) => {
            lines.word(" keyword ");
            lines.word(keyword_word(*keyword));
        }
        Token::Name(name) => {
            lines.word(" name ");
            lines.name(name);
        }
        Token::Number(number) => lines.part(" number ", *number),
        Token::Sign(sign) => {
            lines.word(" sign ");
            lines.word(sign_word(*sign));
        }
    }
    lines.word("\n");
}

/// The tokens of a text, or the place where none stands.
pub fn add_tokens(lines: &mut Lines, alloc: Global, text: &[u8]) {
    match tokens(alloc, text) {
        Ok(found) => {
            lines.word(" tokens\n");
            for lexeme in &found {
                add_token(lines, lexeme);
            }
        }
        Err(TokenFault::Token(place)) => {
            lines.part(" no token at ", place);
            lines.word("\n");
        }
        Err(TokenFault::NoMemory) => lines.word(" no memory\n"),
    }
}
