//! Which records of an image no set has.
#![tactic(auto)]

mod records;

pub use records::lost;
