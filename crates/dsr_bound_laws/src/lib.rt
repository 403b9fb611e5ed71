//! How many steps a repair takes at most: laws on what remains to be done.
//!
//! The functions do nothing when they run. Each carries its law as its contract.
#![tactic(auto)]

mod laws;

pub use laws::{
    remaining_falls, remaining_is_a_number, remaining_is_bounded, runs_are_bounded,
    violations_rise_above_alone,
};
