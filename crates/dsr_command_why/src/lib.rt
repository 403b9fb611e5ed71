//! The answers why a fact is in the model of an image, and which of its records no set has.
#![tactic(auto)]

mod facts;
mod images;
mod lines;
mod losts;
mod named;
mod whys;

pub use losts::lost;
pub use whys::why;
