//! Edits of an image by a script, as they are answered: what is saved, and what is told.
#![tactic(auto)]

mod editing;
mod laws;
mod named;
mod opening;
mod ready;
mod texts;

pub use editing::{Edited, edit};
pub use laws::edits_end_in_one_way;
pub use opening::{Opened, open};
pub use ready::Ready;
