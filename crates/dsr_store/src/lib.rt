//! The outside world as a program sees it: named files, and an output. Beside the two traits stand
//! files and outputs in memory, which can be told to fail, and those of the system.
#![tactic(auto)]

mod keeping;
mod memory;
mod outside;
mod replacing;
mod system;
mod torn;

pub use memory::{MemorySink, SureShelf, SureSink};
pub use outside::{Content, Held, Label, Missed, Shelf, ShelfFault, Sink, SinkFault};
pub use system::{FileShelf, StdSink, read_front};
pub use torn::TornShelf;
