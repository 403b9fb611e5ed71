//! Which sets, relations and constraints a write of some fields may bear on.
#![tactic(auto)]

mod constraints;
mod marks;
mod reading;
mod symbols;

pub use constraints::affected_constraints;
pub use symbols::affected;
