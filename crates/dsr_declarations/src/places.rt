// The declarations in which a place of the text stands.
use dsr_tree::{Constraint, Fresh, Rule, Set, Structure};

/// What begins at a place of the text.
pub trait Placed {
    /// The place at which it begins.
    fn place(&self) -> u64;
}

impl Placed for Structure {
    fn place(&self) -> u64 {
        self.place
    }
}

impl Placed for Set {
    fn place(&self) -> u64 {
        self.place
    }
}

impl Placed for Fresh {
    fn place(&self) -> u64 {
        self.place
    }
}

impl Placed for Rule {
    fn place(&self) -> u64 {
        self.place
    }
}

impl Placed for Constraint {
    fn place(&self) -> u64 {
        self.place
    }
}

/// The one of some declarations, as they stand in the text, in which a place stands.
pub fn around<T: Placed>(items: &[T], place: u64) -> Option<&T> {
    let mut last = None;
    for item in items {
        if item.place() > place {
            return last;
        }
        last = Some(item);
    }
    last
}
