// What a line of a certificate says.
ghost use Rattle.std.specs.Prelude.{◌≡◌, ◌≤◌, ◌<◌, ◌++◌, ◌^◌, ℕ, All, Decides, List, MatchOption, Some, decimal, slice_get};
ghost use Rattle.dsr_cert.specs.Certificates.{ended};
ghost use Rattle.dsr_cert.specs.Forms.{IsDigit, IsNumeral};
ghost use Rattle.dsr_cert.specs.Parts.{IsSaid, texts_of};

use itoa::Buffer;

/// What the line of a literal says of it.
#[derive(Clone, Copy)]
pub enum Said<'a> {
    Test,
    /// A way with these digits.
    Numbered(&'a [u8]),
    /// Neither a test nor a way.
    Other,
}

/// What stands behind the front; none where the text doesn't begin with it.
pub fn behind<'a>(text: &'a [u8], front: &[u8]) -> Option<&'a [u8]>
    ensures { MatchOption result ((rest : List ℕ) → text.entry.now ≡ front.now ++ rest → ⊥)
        (λ rest. text.entry.now ≡ front.now ++ rest.now) }
{
    text.strip_prefix(front)
}

/// The line with this place, without its line feed; none where there is no such line, or it has
/// none.
pub fn line_at<'a>(lines: &[&'a [u8]], at: usize) -> Option<&'a [u8]>
    ensures { MatchOption result
        ((line : List ℕ) → slice_get (texts_of lines.now) at ≡ Some (ended line) → ⊥)
        (λ line. slice_get (texts_of lines.now) at ≡ Some (ended line.now)) }
{
    let line = lines.get(at)?;
    line.strip_suffix(b"\n")
}

fn are_digits(text: &[u8]) -> bool
    ensures { Decides result (All IsDigit text.now) }
{
    text.iter().all(|byte| *byte >= b'0' && *byte <= b'9')
}

fn is_numeral(text: &[u8]) -> bool
    ensures { Decides result (IsNumeral text.now) }
{
    let Some(first) = text.first() else {
        return false;
    };
    if *first == b'0' && text.len() != 1 {
        return false;
    }
    are_digits(text)
}

/// The number below the bound whose digits these are.
pub fn number_below(digits: &[u8], bound: u32) -> Option<u32>
    ensures { MatchOption result ((n : ℕ) → n < bound → digits.now ≡ decimal n → ⊥)
        (λ n. (n < bound) × (digits.now ≡ decimal n)) }
{
    for number in 0..bound {
        if is_decimal(digits, number) {
            return Some(number);
        }
    }
    None
}

fn is_decimal(digits: &[u8], number: u32) -> bool
    ensures { Decides result (digits.now ≡ decimal number) }
{
    digits == Buffer::new().format(number).as_bytes()
}

/// What is said of a literal.
pub fn what_is_said(text: &[u8]) -> Said<'_>
    ensures { IsSaid text.now result }
{
    if text == b"test".as_slice() {
        return Said::Test;
    }
    let Some(digits) = behind(text, b"way ") else {
        return Said::Other;
    };
    if !is_numeral(digits) {
        return Said::Other;
    }
    Said::Numbered(digits)
}
