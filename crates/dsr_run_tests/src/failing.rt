// The calls that fail.
use dsr_store::Missed;
use dsr_test_text::Lines;
use std::str;

/// The calls that fail, counted from 1; 0 for none.
#[derive(Clone, Copy)]
pub struct Failing {
    /// The call of the shelf.
    pub call: u64,
    /// The put.
    pub put: u64,
    /// How many bytes a failed save leaves.
    pub cut: u64,
}

/// The number that these digits are; 0 where they are none.
pub fn number_of(digits: &str) -> u64 {
    digits.parse::<u64>().unwrap_or(0)
}

/// The calls that fail by the first line; none where it isn't such a line.
pub fn failing_of(given: &str) -> Failing {
    let line = given.split('\n').next().unwrap_or(given);
    let numbers = line.strip_prefix("--- ").unwrap_or("0 0");
    let (call, others) = numbers.split_once(' ').unwrap_or((numbers, "0"));
    let (put, cut) = others.split_once(' ').unwrap_or((others, "0"));
    Failing {
        call: number_of(call),
        put: number_of(put),
        cut: number_of(cut),
    }
}

/// Adds the call of the shelf that failed, if one did.
pub fn add_missed(lines: &mut Lines, last: &Option<Missed>) {
    if let Some(missed) = last {
        lines.word(if missed.saving {
            "--- save "
        } else {
            "--- load "
        });
        lines.word(str::from_utf8(missed.name.bytes()).unwrap_or("?"));
        lines.word("\n");
    }
}
