//! Trials: an image that is made from a number, checked and repaired in memory.
#![tactic(auto)]

mod trials;

pub use trials::trial;
