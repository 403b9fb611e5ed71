// Lists of names.
use dsr_ir::NoMemory;
use dsr_wording::Text;
use std::alloc::Global;

// How many names are told at most.
const MOST: usize = 10;

/// A list of names that grows. Where memory runs out, that is told in the end.
#[derive(Drop)]
pub struct Names<'a> {
    names: Vec<&'a [u8]>,
    is_cut: bool,
}

impl<'a> Names<'a> {
    /// No names.
    pub fn new(alloc: Global) -> Names<'a> {
        Names {
            names: Vec::new(alloc),
            is_cut: false,
        }
    }

    /// Adds a name.
    pub fn push(&mut self, name: &'a [u8]) {
        if self.names.push(name).is_err() {
            self.is_cut = true;
        }
    }

    /// All of the names, or that memory ran out.
    pub fn whole(self) -> Result<Vec<&'a [u8]>, NoMemory> {
        if self.is_cut {
            return Err(NoMemory);
        }
        Ok(self.names)
    }
}

// What stands before a name of a list.
fn before(number: usize, count: usize, last: &'static str) -> &'static str {
    if number == 0 {
        ""
    } else if number.saturating_add(1) == count {
        last
    } else {
        ", "
    }
}

/// Appends names in quotes, with `last` before the last one; of many only the first ones.
pub fn push_quoted(text: &mut Text, names: &[&[u8]], last: &'static str) {
    for (number, name) in names.iter().enumerate() {
        if number == MOST {
            text.push(", ..");
            return;
        }
        text.push(before(number, names.len(), last));
        text.fill("`{}`", &[name]);
    }
}
