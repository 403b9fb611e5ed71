// Room in which a step is drafted.
use crate::spans::Span;
use dsr_repair_theory::{ByteChange, CellSet};
use std::alloc::Global;

/// Room in which a step is drafted before it is logged. Each step uses it again, so that one takes
/// memory only where it needs more than all before.
#[derive(Drop)]
pub struct Draft {
    pub(crate) spans: Vec<Span>,
    pub(crate) sets: Vec<CellSet>,
    pub(crate) bytes: Vec<ByteChange>,
}

impl Draft {
    /// No room yet. Takes no memory.
    pub fn new(alloc: Global) -> Draft {
        Draft {
            spans: Vec::new(alloc),
            sets: Vec::new(alloc),
            bytes: Vec::new(alloc),
        }
    }
}
