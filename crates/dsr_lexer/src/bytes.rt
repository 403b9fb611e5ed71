// The bytes that tokens are made of, and runs of them.
ghost use Rattle.std.specs.Prelude.{◌≡◌, IsTrue};
ghost use Rattle.std.specs.List.{prefix_len};
ghost use Rattle.dsr_syntax_theory.specs.Tokens.{is_letter, is_digit, is_hexadecimal_digit, is_in_word, is_in_line, is_blank, digit_value};

pub fn is_letter_byte(b: u8) -> bool
    ensures { result ≡ is_letter b }
{
    (b'a' <= b && b <= b'z') || (b'A' <= b && b <= b'Z')
}

pub fn is_digit_byte(b: u8) -> bool
    ensures { result ≡ is_digit b }
{
    b'0' <= b && b <= b'9'
}

pub fn is_hexadecimal_byte(b: u8) -> bool
    ensures { result ≡ is_hexadecimal_digit b }
{
    is_digit_byte(b) || (b'a' <= b && b <= b'f') || (b'A' <= b && b <= b'F')
}

pub fn is_word_byte(b: u8) -> bool
    ensures { result ≡ is_in_word b }
{
    is_letter_byte(b) || is_digit_byte(b) || b == b'_'
}

pub fn is_blank_byte(b: u8) -> bool
    ensures { result ≡ is_blank b }
{
    b == b' ' || b == b'\t' || b == b'\n' || b == b'\r'
}

/// What a digit of base 10 or 16 counts.
pub fn digit_number(b: u8) -> u64
    requires { IsTrue (is_hexadecimal_digit b) }
    ensures { result ≡ digit_value b }
{
    let number = if is_digit_byte(b) {
        b - b'0'
    } else if b'a' <= b {
        b - b'a' + 10
    } else {
        b - b'A' + 10
    };
    u64::from(number)
}

/// How many bytes at the front may stand in a word.
pub fn word_len(bytes: &[u8]) -> usize
    ensures { result ≡ prefix_len is_in_word bytes.now }
{
    bytes.iter().take_while(|b| is_word_byte(**b)).count()
}

/// How many bytes at the front are decimal digits.
pub fn digits_len(bytes: &[u8]) -> usize
    ensures { result ≡ prefix_len is_digit bytes.now }
{
    bytes.iter().take_while(|b| is_digit_byte(**b)).count()
}

/// How many bytes at the front are hexadecimal digits.
pub fn hexadecimal_len(bytes: &[u8]) -> usize
    ensures { result ≡ prefix_len is_hexadecimal_digit bytes.now }
{
    bytes
        .iter()
        .take_while(|b| is_hexadecimal_byte(**b))
        .count()
}

/// How many bytes stand before the first line feed.
pub fn line_len(bytes: &[u8]) -> usize
    ensures { result ≡ prefix_len is_in_line bytes.now }
{
    bytes.iter().take_while(|b| **b != b'\n').count()
}
