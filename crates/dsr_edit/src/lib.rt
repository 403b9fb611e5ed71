//! Edits of an image that keep it consistent: groups of writes, each of which is made whole or not at
//! all.
#![tactic(auto)]

mod cells;
mod faults;
mod groups;
mod making;
mod preparing;
mod puts;
mod session;
mod updates;

pub use faults::{EditFault, OpenFault};
pub use groups::CellWrite;
pub use session::{Paused, Session};
