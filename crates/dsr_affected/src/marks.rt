// Marks of sets and of relations.
ghost use Rattle.std.specs.Prelude.{◌≡◌, false, true, replicate, slice_set};
ghost use Rattle.dsr_affected.specs.Marking as said;

use dsr_ir::Symbol;

/// How many sets there may be, and how many relations.
pub const MOST_SYMBOLS: usize = 64;

/// Which sets and which relations are marked.
#[derive(Clone, Copy)]
pub struct Marks {
    pub sets: [bool; MOST_SYMBOLS],
    pub rels: [bool; MOST_SYMBOLS],
}

// Marks a number, where there is room for it.
fn set_mark(marks: &mut [bool; MOST_SYMBOLS], number: u32)
    ensures { marks.new ≡ slice_set marks.old number true }
{
    let place = number as usize;
    if place < marks.len() {
        marks[place] = true;
    }
}

impl Marks {
    /// No marks.
    pub fn none() -> Marks
        ensures sets { result.sets ≡ replicate 64 false }
        ensures rels { result.rels ≡ replicate 64 false }
    {
        Marks {
            sets: [false; MOST_SYMBOLS],
            rels: [false; MOST_SYMBOLS],
        }
    }

    /// Whether the symbol is marked.
    pub fn has(&self, symbol: Symbol) -> bool
        ensures { result ≡ said.has_mark self.now symbol }
    {
        let mark = match symbol {
            Symbol::Set(set) => self.sets.get(set as usize),
            Symbol::Rel(rel) => self.rels.get(rel as usize),
        };
        match mark {
            Some(mark) => *mark,
            None => false,
        }
    }

    /// Marks the symbol, where there may be so many.
    pub fn add(&mut self, symbol: Symbol)
        ensures { self.new ≡ said.with_mark self.old symbol }
    {
        match symbol {
            Symbol::Set(set) => set_mark(&mut self.sets, set),
            Symbol::Rel(rel) => set_mark(&mut self.rels, rel),
        }
    }
}
