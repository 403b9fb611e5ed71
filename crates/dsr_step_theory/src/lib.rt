//! What a step does to the bytes of an image: the reset of a fresh record, and then the writes of
//! an update.
//!
//! The definitions stand in `specs/`. That data structures are repaired by writes to single fields
//! is after OOPSLA 2003.
#![tactic(auto)]

mod steps;

pub use steps::Step;
