// What the words behind a file's name make of it.
use crate::failing::number_of;
use dsr_gen::trial_image;
use dsr_ir::NoMemory;
use std::alloc::Global;

// The bytes that these digits are; none where they aren't hexadecimal ones.
fn decoded(alloc: Global, digits: &str) -> Vec<u8> {
    match hex::decode(alloc, digits) {
        Ok(bytes) => bytes,
        Err(_) => Vec::new(alloc),
    }
}

// Adds as one adds numbers whose least byte is the first.
fn add(number: &mut [u8], step: &[u8]) {
    let mut carry = false;
    for (byte, other) in number.iter_mut().zip(step) {
        let (sum, is_over) = byte.overflowing_add(*other);
        let (sum, is_carried) = sum.overflowing_add(u8::from(carry));
        *byte = sum;
        carry = is_over || is_carried;
    }
}

// Appends `HEX*COUNT+HEX`, of which the end may be left out.
fn add_repeated(alloc: Global, bytes: &mut Vec<u8>, word: &str) -> Result<(), NoMemory> {
    let (digits, times) = word.split_once('*').unwrap_or((word, "1"));
    let (count, step) = times.split_once('+').unwrap_or((times, ""));
    let step = decoded(alloc, step);
    let mut piece = decoded(alloc, digits);
    for _ in 0..number_of(count) {
        bytes.extend_from_slice(&piece)?;
        add(&mut piece, &step);
    }
    Ok(())
}

fn add_trial(alloc: Global, bytes: &mut Vec<u8>, digits: &str) -> Result<(), NoMemory> {
    let image = trial_image(alloc, digits.parse::<u16>().unwrap_or(0))?;
    bytes.extend_from_slice(&image)?;
    Ok(())
}

/// Does what the word says to the bytes so far.
pub fn add_piece(alloc: Global, bytes: &mut Vec<u8>, word: &str) -> Result<(), NoMemory> {
    if let Some(digits) = word.strip_prefix('<') {
        bytes.truncate(digits.parse::<usize>().unwrap_or(0));
        return Ok(());
    }
    match word.strip_prefix("trial:") {
        Some(digits) => add_trial(alloc, bytes, digits),
        None => add_repeated(alloc, bytes, word),
    }
}
