//! Repair of an image by a plan: which step is due, the step made on the image with what is told of
//! it, and one after the other until the image is consistent or a supply is empty, with a log of
//! them.
//!
//! That a violated constraint is repaired by making the literals of one conjunction true is after
//! OOPSLA 2003.
#![tactic(auto)]

mod backing;
mod bindings;
mod choosing;
mod cursors;
mod drafts;
mod dues;
mod entries;
mod fresh;
mod literals;
mod making;
mod notes;
mod orders;
mod renewing;
mod repairs;
mod rounds;
mod spans;
mod steps;
mod touched;

pub use backing::Backing;
pub use bindings::Violation;
pub use cursors::Cursor;
pub use drafts::Draft;
pub use dues::{due, due_from};
pub use making::make;
pub use repairs::repair;
pub use rounds::{ROUND, Repair};
pub use steps::step;
