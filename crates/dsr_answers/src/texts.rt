// Texts that grow piece by piece.
ghost use Rattle.std.specs.Prelude.{◌≡◌, ◌++◌, ◌∷◌, IfOk, OnOk, decimal};
ghost use Rattle.dsr_script.specs.Moves.{shown};

use dsr_ir::NoMemory;
use dsr_script::{Told, Verdict};
use itoa::Buffer;
use std::alloc::Global;

/// Appends a piece. Most are constant, and many of these one byte, which the caller then writes by
/// itself.
#[inline(always)]
pub fn push(text: &mut Vec<u8>, piece: &[u8]) -> Result<(), NoMemory>
    ensures { OnOk result (text.new.items ≡ text.old.items ++ piece.now) }
{
    match piece {
        [byte] => text.push(*byte)?,
        _ => text.extend_from_slice(piece)?,
    }
    Ok(())
}

/// Appends a word with a name behind it.
pub fn push_named(text: &mut Vec<u8>, word: &[u8], name: &[u8]) -> Result<(), NoMemory>
    ensures { OnOk result (text.new.items ≡ text.old.items ++ word.now ++ name.now) }
{
    push(text, word)?;
    push(text, name)
}

// Appends a number in decimal, of however many digits.
#[inline(never)]
fn push_digits(text: &mut Vec<u8>, number: u64) -> Result<(), NoMemory>
    ensures { OnOk result (text.new.items ≡ text.old.items ++ decimal number) }
{
    push(text, Buffer::new().format(number).as_bytes())
}

/// Appends a number in decimal. Most have one digit.
#[inline(always)]
pub fn push_number(text: &mut Vec<u8>, number: u64) -> Result<(), NoMemory>
    ensures { OnOk result (text.new.items ≡ text.old.items ++ decimal number) }
{
    if number < 10 {
        return push(text, &[b'0' + number as u8]);
    }
    push_digits(text, number)
}

/// Appends a byte and a number behind it, in decimal. Most have one digit, and are one piece.
#[inline(always)]
pub fn push_behind(text: &mut Vec<u8>, byte: u8, number: u64) -> Result<(), NoMemory>
    ensures { OnOk result (text.new.items ≡ text.old.items ++ (byte ∷ decimal number)) }
{
    if number < 10 {
        return push(text, &[byte, b'0' + number as u8]);
    }
    push(text, &[byte])?;
    push_digits(text, number)
}

/// The answer with this verdict and this text.
pub fn told(alloc: Global, verdict: Verdict, text: &[u8]) -> Result<Told, NoMemory>
    ensures { IfOk result (λ told. shown told ≡ record { verdict = verdict; text = text.now }) }
{
    Ok(Told {
        verdict,
        text: Vec::from_slice(alloc, text)?,
    })
}
