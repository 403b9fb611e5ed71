// Numbers at the front of a text.
ghost use Rattle.std.specs.Prelude.{◌≡◌, Decides, drop};
ghost use Rattle.dsr_report_read.specs.Reads.{Begins};
ghost use Rattle.dsr_report_read.specs.Lenient as said;

fn digits_len(text: &[u8]) -> usize
    ensures { result ≡ said.digits_len text.now }
{
    text.iter().take_while(|byte| byte.is_ascii_digit()).count()
}

// What the digits say, modulo 2^64.
fn value(digits: &[u8]) -> u64
    ensures { result ≡ said.value_after 0 digits.now }
{
    let mut value = 0u64;
    for digit in digits {
        value = value
            .wrapping_mul(10)
            .wrapping_add(u64::from(digit.saturating_sub(b'0')));
    }
    value
}

/// The text without so many bytes at its front.
pub fn skip(text: &[u8], count: usize) -> &[u8]
    ensures { result.now ≡ drop count text.now }
{
    text.get(count..).unwrap_or(b"")
}

/// Whether this front stands ahead.
pub fn is_ahead(front: &[u8], text: &[u8]) -> bool
    ensures { Decides result (Begins text.now front.now) }
{
    text.strip_prefix(front).is_some()
}

/// The number at the front, and what stands behind it.
pub fn number_ahead(text: &[u8]) -> (u64, &[u8])
    ensures value { result.0 ≡ said.number_ahead text.now }
    ensures rest { result.1.now ≡ said.behind_number text.now }
{
    let len = digits_len(text);
    let (digits, rest) = text.split_at(len);
    (value(digits), rest)
}

/// The number, where it has no more than 32 bits.
pub fn narrow(number: u64) -> u32
    ensures { result ≡ said.narrow number }
{
    if 4_294_967_295 < number {
        return 0;
    }
    number as u32
}

/// A number that counts from 1.
pub fn place_of(number: u64) -> u32
    ensures { result ≡ said.place_of number }
{
    narrow(number.saturating_sub(1))
}

/// The byte whose two digits stand at the front.
pub fn byte_ahead(text: &[u8]) -> u8
    ensures { result ≡ said.byte_ahead text.now }
{
    let mut byte = [0; 1];
    let digits = &text[..text.len().min(2)];
    match hex::decode_to_slice(digits, &mut byte) {
        Ok(()) => byte[0],
        Err(_) => 0,
    }
}
