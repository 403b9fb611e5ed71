// The tokens of a text.
ghost use Rattle.std.specs.Prelude.{◌≡◌, ◌<◌, length, drop, IfOk};
ghost use Rattle.dsr_syntax_theory.specs.Tokens.{is_second_version, is_two, is_version};
ghost use Rattle.dsr_lexer.specs.Lexing.{FindsGap, AreFrontTokens, Lexes, StepsOn};

use crate::bytes::{is_blank_byte, line_len};
use crate::words::find_token;
use dsr_ir::NoMemory;
use dsr_tree::{Keyword, Lexeme, Token};
use std::alloc::{AllocFailed, Global};
use thiserror::Error;

/// Why a text has no tokens.
#[derive(Debug, Drop, Error)]
pub enum TokenFault {
    /// The allocator had no memory left.
    #[error("out of memory")]
    NoMemory,
    /// The place of the first bytes that are no token, counted from 0: no token begins there, or
    /// the name has more than 32 bytes, or the number is above 2^64 - 1.
    #[error("no token at byte {0}")]
    Token(u64),
}

impl From<NoMemory> for TokenFault {
    ghost use Rattle.dsr_lexer.specs.declared.lexer.TokenFault.TheVariants as fault;

    ghost from_gives = { λ _ e. e ≡ fault.NoMemory };

    fn from(_: NoMemory) -> Self {
        TokenFault::NoMemory
    }
}

impl<T: Drop> From<AllocFailed<T>> for TokenFault {
    ghost use Rattle.dsr_lexer.specs.declared.lexer.TokenFault.TheVariants as fault;

    ghost from_gives = { λ _ e. e ≡ fault.NoMemory };

    fn from(_: AllocFailed<T>) -> Self {
        TokenFault::NoMemory
    }
}

// The length of a blank or a comment at the front.
fn find_gap(text: &[u8]) -> Option<usize>
    requires { 0 < length text.now }
    ensures { FindsGap text.now result }
{
    let first = text[0];
    if is_blank_byte(first) {
        Some(1)
    } else if first == b'#' {
        Some(line_len(text))
    } else {
        None
    }
}

fn is_version_keyword(token: &Token) -> bool
    ensures { result ≡ is_version token.now }
{
    matches!(token, Token::Keyword(Keyword::Version))
}

fn is_number_two(token: &Token) -> bool
    ensures { result ≡ is_two token.now }
{
    matches!(token, Token::Number(2))
}

// Whether the text of these tokens is of version 2.
fn is_of_second_version(lexemes: &[Lexeme]) -> bool
    ensures { result ≡ is_second_version lexemes.now }
{
    match lexemes {
        [first, second, ..] => is_version_keyword(&first.token) && is_number_two(&second.token),
        _ => false,
    }
}

// Reads a blank, a comment or a token, and gives the place behind it; none where no token begins.
fn step(
    alloc: Global,
    lexemes: &mut Vec<Lexeme>,
    text: &[u8],
    place: usize,
) -> Result<Option<usize>, NoMemory>
    requires { place < length text.now }
    ensures { StepsOn lexemes.old.items lexemes.new.items text.now place result }
{
    let rest = &text[place..];
    if let Some(len) = find_gap(rest) {
        return Ok(Some(place + len));
    }
    match find_token(alloc, rest, is_of_second_version(lexemes))? {
        None => Ok(None),
        Some(found) => {
            lexemes.push(Lexeme {
                token: found.token,
                place: place as u64,
            })?;
            Ok(Some(place + found.len))
        }
    }
}

/// The tokens of a text up to its end, or up to the first bytes that are no token.
#[derive(Drop)]
pub struct TextFront {
    /// The tokens, with their places.
    pub lexemes: Vec<Lexeme>,
    /// The place of the first bytes that are no token, counted from 0; none where the text's end
    /// was reached.
    pub fault: Option<u64>,
}

/// The tokens of a text up to its end, or up to the first bytes that are no token.
pub fn front(alloc: Global, text: &[u8]) -> Result<TextFront, NoMemory>
    ensures { IfOk result (λ front. AreFrontTokens text.now front.lexemes.items front.fault) }
{
    let mut lexemes = Vec::new(alloc);
    let mut place = 0;
    while place < text.len() {
        match step(alloc, &mut lexemes, text, place)? {
            Some(next) => place = next,
            None => {
                return Ok(TextFront {
                    lexemes,
                    fault: Some(place as u64),
                });
            }
        }
    }
    Ok(TextFront {
        lexemes,
        fault: None,
    })
}

/// The tokens of a text, with their places.
pub fn tokens(alloc: Global, text: &[u8]) -> Result<Vec<Lexeme>, TokenFault>
    ensures { Lexes text.now result }
{
    let front = front(alloc, text)?;
    match front.fault {
        None => Ok(front.lexemes),
        Some(place) => Err(TokenFault::Token(place)),
    }
}
