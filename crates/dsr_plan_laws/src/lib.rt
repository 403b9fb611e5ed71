//! What lists and plans there are: one list a literal, and one plan that is taken, if any. Laws on the definitions.
//!
//! The functions do nothing when they run. Each carries its law as its contract.
#![tactic(auto)]

mod lists;
mod plans;

pub use lists::a_literal_has_one_list;
pub use plans::taken_plans_are_one;
