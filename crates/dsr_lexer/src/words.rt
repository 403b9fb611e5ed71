// The token at the front of a text.
ghost use Rattle.std.specs.Prelude.{◌≡◌, ◌≤◌, ◌^◌, Bool, false, IsTrue};
ghost use Rattle.dsr_syntax_theory.specs.Tokens.{every, is_letter, is_digit, is_hexadecimal_digit, value_after};
ghost use Rattle.dsr_lexer.specs.Front.{begins, begins_hexadecimal, number_below, FindsFront, FindsToken};

use crate::bytes::{
    digit_number, digits_len, hexadecimal_len, is_digit_byte, is_hexadecimal_byte, is_letter_byte,
    word_len,
};
use crate::spellings::{find_keyword, find_sign, sign_bytes};
use dsr_ir::{Name, NoMemory};
use dsr_tree::Token;
use std::alloc::Global;

/// The most bytes of a name.
pub const NAME_LIMIT: usize = 32;

// A token with the number of bytes that spell it.
#[derive(Drop)]
pub struct Found {
    pub token: Token,
    pub len: usize,
}

// The number that digits write, where 64 bits hold it.
fn number_of(base: u64, digits: &[u8]) -> Option<u64>
    requires base { 1 ≤ base }
    requires digits { IsTrue (every is_hexadecimal_digit digits.now) }
    ensures { result ≡ number_below (2 ^ 64) (value_after base 0 digits.now) }
{
    let mut number: u64 = 0;
    for digit in digits {
        number = number.checked_mul(base)?.checked_add(digit_number(*digit))?;
    }
    Some(number)
}

// The keyword or the name at the front.
fn find_word(alloc: Global, text: &[u8], second: bool) -> Result<Option<Found>, NoMemory>
    requires { IsTrue (begins is_letter text.now) }
    ensures { FindsToken second text.now result }
{
    let len = word_len(text);
    let word = &text[..len];
    if let Some(keyword) = find_keyword(word, second) {
        return Ok(Some(Found {
            token: Token::Keyword(keyword),
            len,
        }));
    }
    if len > NAME_LIMIT {
        return Ok(None);
    }
    let name = Name::new(Vec::from_slice(alloc, word)?);
    Ok(Some(Found {
        token: Token::Name(name),
        len,
    }))
}

fn begins_hexadecimal_number(text: &[u8]) -> bool
    ensures { result ≡ begins_hexadecimal text.now }
{
    match text {
        [b'0', b'x', digit, ..] => is_hexadecimal_byte(*digit),
        _ => false,
    }
}

// The number behind `0x` at the front.
fn find_hexadecimal(text: &[u8]) -> Option<Found>
    requires { IsTrue (begins_hexadecimal text.now) }
    ensures { (second : Bool) → FindsFront second text.now result }
{
    let digits = &text[2..];
    let len = hexadecimal_len(digits);
    let number = number_of(16, &digits[..len])?;
    Some(Found {
        token: Token::Number(number),
        len: 2 + len,
    })
}

// The decimal number at the front.
fn find_decimal(text: &[u8]) -> Option<Found>
    requires digit { IsTrue (begins is_digit text.now) }
    requires plain { begins_hexadecimal text.now ≡ false }
    ensures { (second : Bool) → FindsFront second text.now result }
{
    let len = digits_len(text);
    let number = number_of(10, &text[..len])?;
    Some(Found {
        token: Token::Number(number),
        len,
    })
}

// The sign at the front.
fn find_mark(text: &[u8]) -> Option<Found>
    requires letter { begins is_letter text.now ≡ false }
    requires digit { begins is_digit text.now ≡ false }
    ensures { (second : Bool) → FindsFront second text.now result }
{
    let sign = find_sign(text)?;
    Some(Found {
        token: Token::Sign(sign),
        len: sign_bytes(sign).len(),
    })
}

/// Whether a letter stands at the front, with which keywords and names begin.
pub fn begins_word(text: &[u8]) -> bool
    ensures { result ≡ begins is_letter text.now }
{
    text.first().is_some_and(|b| is_letter_byte(*b))
}

fn begins_number(text: &[u8]) -> bool
    ensures { result ≡ begins is_digit text.now }
{
    text.first().is_some_and(|b| is_digit_byte(*b))
}

/// The token at the front, where one stands there that is within the limits.
pub fn find_token(alloc: Global, text: &[u8], second: bool) -> Result<Option<Found>, NoMemory>
    ensures { FindsToken second text.now result }
{
    if begins_word(text) {
        find_word(alloc, text, second)
    } else if begins_hexadecimal_number(text) {
        Ok(find_hexadecimal(text))
    } else if begins_number(text) {
        Ok(find_decimal(text))
    } else {
        Ok(find_mark(text))
    }
}
