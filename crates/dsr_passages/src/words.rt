// What is told of a text, while it is put together.
use crate::diagnosis::Diagnosis;
use dsr_ir::NoMemory;
use dsr_wording::Text;
use std::alloc::Global;

/// What is wrong, and what may help, both in words without an end. Where memory runs out, that is
/// told in the end: so what finds words has nothing to pass on.
#[derive(Drop)]
pub struct Words {
    /// What is wrong.
    pub message: Text,
    hints: Vec<String>,
    is_cut: bool,
}

impl Words {
    /// No words.
    pub fn new(alloc: Global) -> Words {
        Words {
            message: Text::new(alloc),
            hints: Vec::new(alloc),
            is_cut: false,
        }
    }

    /// Keeps that memory ran out where words were looked for.
    pub fn cut(&mut self) {
        self.is_cut = true;
    }

    /// Says what is wrong.
    pub fn say(&mut self, text: &str) {
        self.message.push(text);
    }

    /// The same in a template, with names in place of each `{}`.
    pub fn say_of(&mut self, template: &str, names: &[&[u8]]) {
        self.message.fill(template, names);
    }

    /// Adds a hint.
    pub fn add(&mut self, hint: Text) {
        match hint.whole() {
            Ok(hint) => self.push(hint),
            Err(_) => self.is_cut = true,
        }
    }

    fn push(&mut self, hint: String) {
        if self.hints.push(hint).is_err() {
            self.is_cut = true;
        }
    }

    /// Adds a hint that is this text.
    pub fn hint(&mut self, text: &str) {
        let mut hint = Text::new(self.message.allocator());
        hint.push(text);
        self.add(hint);
    }

    /// Adds a hint of a template, with names in place of each `{}`.
    pub fn hint_of(&mut self, template: &str, names: &[&[u8]]) {
        let mut hint = Text::new(self.message.allocator());
        hint.fill(template, names);
        self.add(hint);
    }

    /// All of it, told of so many bytes from a place on; or that memory ran out.
    pub fn at(self, place: usize, length: usize) -> Result<Diagnosis, NoMemory> {
        let Words {
            message,
            hints,
            is_cut,
        } = self;
        let message = message.whole()?;
        if is_cut {
            return Err(NoMemory);
        }
        Ok(Diagnosis {
            place,
            length,
            message,
            hints,
        })
    }
}
