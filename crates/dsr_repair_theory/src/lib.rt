//! When an update is applied to an image, what a repair does next, what is told of each step in a
//! log, and runs of steps from one image to another.
//!
//! The definitions stand in `specs/`. That a violated constraint is repaired by making the literals
//! of one of its conjunctions true, a false one by one update at a time, is after OOPSLA 2003 and
//! ICSE 2005; the order of all choices is this project's own.
#![tactic(auto)]

mod entries;
mod logs;
mod turns;

pub use entries::{ByteChange, CellSet, Entry};
pub use logs::Log;
pub use turns::{Need, Outcome, Turn};
