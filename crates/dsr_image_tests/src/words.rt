// The words of a line.
use anyhow::{Result, bail};
use dsr_ir::Element;

/// The words of a line, which are read one after the other. What isn't as it is asked for is read
/// as an empty word or 0, and that is told in the end.
#[derive(Drop)]
pub struct Words<'a> {
    line: &'a str,
    rest: &'a str,
    is_wrong: bool,
}

impl<'a> Words<'a> {
    pub fn new(line: &'a str) -> Words<'a> {
        Words {
            line,
            rest: line,
            is_wrong: false,
        }
    }

    /// Takes note that the line isn't as it should be.
    pub fn refuse(&mut self) {
        self.is_wrong = true;
    }

    pub fn word(&mut self) -> &'a str {
        let (word, rest) = self.rest.split_once(' ').unwrap_or((self.rest, ""));
        self.rest = rest;
        word
    }

    /// Reads a word that is known.
    pub fn skip(&mut self, wanted: &str) {
        if self.word() != wanted {
            self.refuse();
        }
    }

    /// The number that a word is.
    pub fn value_of(&mut self, word: &str) -> u32 {
        match word.parse() {
            Ok(number) => number,
            Err(_) => {
                self.refuse();
                0
            }
        }
    }

    pub fn number(&mut self) -> u32 {
        let word = self.word();
        self.value_of(word)
    }

    pub fn large_number(&mut self) -> u64 {
        match self.word().parse() {
            Ok(number) => number,
            Err(_) => {
                self.refuse();
                0
            }
        }
    }

    /// A number, or none where `-` stands.
    pub fn option(&mut self) -> Option<u32> {
        match self.word() {
            "-" => None,
            word => Some(self.value_of(word)),
        }
    }

    /// Two numbers with a dot between them.
    pub fn pair(&mut self) -> (u32, u32) {
        let word = self.word();
        self.pair_of(word)
    }

    // The two numbers in a word.
    fn pair_of(&mut self, word: &str) -> (u32, u32) {
        let (first, second) = word.split_once('.').unwrap_or(("", ""));
        (self.value_of(first), self.value_of(second))
    }

    /// The record whose pool and slot stand in a word.
    pub fn record_of(&mut self, word: &str) -> Element {
        let (pool, slot) = self.pair_of(word);
        Element { pool, slot }
    }

    /// An error where the line wasn't as it should be, or has more words.
    pub fn end(self) -> Result<()> {
        if self.is_wrong || !self.rest.is_empty() {
            bail!("not understood: {}", self.line);
        }
        Ok(())
    }
}
