//! Whether a specification has a plan, with the answer that tells it: the levels of the plan that
//! is taken, or what stands in the way of one.
#![tactic(auto)]

mod levels;
mod plans;
mod stuck;

pub use levels::{accepted, level_count};
pub use plans::{Found, find, plan};
pub use stuck::{push_named, refused};
