//! A repair taken back: the entries of a log, from the last to the first, and of each the bytes that
//! it changed.
#![tactic(auto)]

mod bytes;
mod lines;
mod undoing;

pub use lines::lines_back;
pub use undoing::undo;
