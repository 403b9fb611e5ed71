//! Taking back what a run told of: which bytes come of it, which line of a report stops it, and
//! laws on both. The functions do nothing when they run. Each carries its law as its contract.
#![tactic(auto)]

mod faults;
mod laws;

pub use faults::UndoFault;
pub use laws::{runs_are_taken_back, taking_back_has_one_outcome};
