// Tests of what is known of two things, and of numbers against fields.
ghost use Rattle.std.specs.Prelude.{◌≡◌, ◌^◌, nat_le, option_map};
ghost use Rattle.dsr_meaning.specs.Cells.{width_bits};
ghost use Rattle.dsr_language_theory.specs.Declarations.{disagree};
ghost use Rattle.dsr_language_theory.specs.Known.{differ};
ghost use Rattle.dsr_language_theory.specs.Names.{is_at};
ghost use Rattle.dsr_language_theory.specs.RuleFaults.{is_other_target};

use dsr_ir::{Expr, Width};

/// Whether a number was found, and is this one.
pub fn is_at(number: usize, found: Option<u32>) -> bool
    ensures { result ≡ is_at number found }
{
    match found {
        Some(found) => found as usize == number,
        None => false,
    }
}

/// Whether two numbers are known and differ.
pub fn disagree(left: Option<u32>, right: Option<u32>) -> bool
    ensures { result ≡ disagree left right }
{
    let Some(left) = left else {
        return false;
    };
    match right {
        Some(right) => left != right,
        None => false,
    }
}

/// Whether two lengths are known and aren't the same expression.
pub fn differ(left: Option<&Expr>, right: Option<&Expr>) -> bool
    ensures { result ≡ differ (option_map (λ e. e.now) left.entry) (option_map (λ e. e.now) right.entry) }
{
    let Some(left) = left else {
        return false;
    };
    match right {
        Some(right) => left != right,
        None => false,
    }
}

/// Whether a relation's targets aren't what a field or a variable has; none stands for numbers.
pub fn is_other_target(referred: Option<u32>, target: Option<u32>) -> bool
    ensures { result ≡ is_other_target referred target }
{
    let Some(referred) = referred else {
        return target.is_some();
    };
    match target {
        Some(target) => referred != target,
        None => true,
    }
}

/// The bits of a width.
pub fn width_bits(width: Width) -> u64
    ensures { result ≡ width_bits width }
{
    match width {
        Width::U8 => 8,
        Width::U16 => 16,
        Width::U32 => 32,
        Width::U64 => 64,
        Width::Bits(bits) => u64::from(bits),
    }
}

/// Whether a number needs more than so many bits.
pub fn is_too_wide(number: u64, bits: u64) -> bool
    ensures { result ≡ nat_le (2 ^ bits) number }
{
    bits < 64 && number >> bits != 0
}
