//! The plan that is taken for a specification, found in rounds, or what stands in the way of one: the largest set of
//! constraints none of which can be repaired before the others, and what each of them waits for.
#![tactic(auto)]

mod cycles;
mod ends;
mod laws;
mod members;
mod refusals;
mod rounds;
mod taking;
mod ways;

pub use laws::taken_plans_are_of_rounds;
pub use refusals::{Stuck, plan};
pub use taking::{Placement, place};
