//! The repair dependence graph, for every specification and every image: which updates are listed for a literal, for
//! what else they may change, and which constraints each of them may break.
//!
//! The definitions stand in `specs/`, one file a subject. That constraints are nodes, and that an edge leads from a
//! constraint to each one that a repair of it may break, is after the repair dependence graph of ICSE 2005. That an
//! update which may undo what other rules give gets a second write that prevents it is this project's own.
#![tactic(auto)]

mod causes;
mod laws;

pub use causes::{Cause, Reason};
pub use laws::the_first_kept_are_taken;
