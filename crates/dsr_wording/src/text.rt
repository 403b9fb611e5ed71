// A text that keeps that it couldn't grow.
use crate::text_of;
use dsr_ir::NoMemory;
use itoa::Buffer;
use std::alloc::Global;
use std::fmt::{Display, Write};

/// A text that grows by pieces. That memory ran out is kept, and told in the end: so what writes a
/// text has nothing to pass on.
#[derive(Drop)]
pub struct Text {
    text: String,
    is_cut: bool,
}

impl Text {
    /// No text.
    pub fn new(alloc: Global) -> Text {
        Text {
            text: String::new(alloc),
            is_cut: false,
        }
    }

    /// Appends a piece as it is.
    pub fn push(&mut self, piece: &str) {
        if self.text.push_str(piece).is_err() {
            self.is_cut = true;
        }
    }

    /// Appends pieces, one behind the other.
    pub fn pieces(&mut self, pieces: &[&str]) {
        for piece in pieces {
            self.push(piece);
        }
    }

    /// Appends a template, with names in place of each `{}`.
    pub fn fill(&mut self, template: &str, names: &[&[u8]]) {
        let mut rest = template;
        for name in names {
            if let Some((before, behind)) = rest.split_once("{}") {
                self.push(before);
                self.name(name);
                rest = behind;
            }
        }
        self.push(rest);
    }

    /// Appends what a value shows of itself.
    pub fn shown<D: Display>(&mut self, value: &D) {
        if write!(self.text, "{value}").is_err() {
            self.is_cut = true;
        }
    }

    /// Appends the bytes of a name.
    pub fn name(&mut self, name: &[u8]) {
        self.push(text_of(name));
    }

    /// Appends a number in decimal.
    pub fn number(&mut self, number: u64) {
        let mut buffer = Buffer::new();
        self.push(buffer.format(number));
    }

    /// Appends a number with commas between its thousands.
    pub fn grouped(&mut self, number: u64) {
        let mut buffer = Buffer::new();
        let digits = buffer.format(number);
        let len = digits.len();
        for (place, digit) in digits.bytes().enumerate() {
            if place > 0 && len.saturating_sub(place) % 3 == 0 {
                self.push(",");
            }
            self.push_letter(char::from(digit));
        }
    }

    /// Appends a letter.
    pub fn push_letter(&mut self, letter: char) {
        if self.text.push(letter).is_err() {
            self.is_cut = true;
        }
    }

    /// Keeps that memory ran out, where what was to be added couldn't be made.
    pub fn cut(&mut self) {
        self.is_cut = true;
    }

    /// Whether nothing was written.
    pub fn is_empty(&self) -> bool {
        self.text.is_empty()
    }

    /// The allocator of the text.
    pub fn allocator(&self) -> Global {
        *self.text.allocator()
    }

    /// All of the text, or that memory ran out.
    pub fn whole(self) -> Result<String, NoMemory> {
        if self.is_cut {
            return Err(NoMemory);
        }
        Ok(self.text)
    }
}
