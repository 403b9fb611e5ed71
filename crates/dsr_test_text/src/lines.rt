// Text that grows by words.
use dsr_ir::Name;
use itoa::Buffer;
use std::alloc::{AllocError, Global};
use std::str;

/// Text that grows by words. Where memory runs out, what is added from then on is left out, and
/// that is told in the end.
#[derive(Drop)]
pub struct Lines {
    text: String,
    is_cut: bool,
}

impl Lines {
    /// No text.
    pub fn new(alloc: Global) -> Lines {
        Lines {
            text: String::new(alloc),
            is_cut: false,
        }
    }

    /// Adds a word as it is, with the blanks and line feeds in it.
    pub fn word(&mut self, word: &str) {
        if self.text.push_str(word).is_err() {
            self.is_cut = true;
        }
    }

    /// Adds a number in decimal.
    pub fn number(&mut self, number: u64) {
        let mut buffer = Buffer::new();
        self.word(buffer.format(number));
    }

    /// A word, and a number behind it.
    pub fn part(&mut self, word: &str, number: u64) {
        self.word(word);
        self.number(number);
    }

    /// A word, and the number behind it; `-` where it is missing.
    pub fn option(&mut self, word: &str, number: Option<u32>) {
        match number {
            Some(number) => self.part(word, u64::from(number)),
            None => {
                self.word(word);
                self.word("-");
            }
        }
    }

    /// A name; `-` for that of a gap, which has none.
    pub fn name(&mut self, name: &Name) {
        match str::from_utf8(name.bytes()) {
            Ok("") | Err(_) => self.word("-"),
            Ok(word) => self.word(word),
        }
    }

    /// All of the text, or an error where memory ran out.
    pub fn whole(self) -> Result<String, AllocError> {
        if self.is_cut {
            return Err(AllocError);
        }
        Ok(self.text)
    }
}
