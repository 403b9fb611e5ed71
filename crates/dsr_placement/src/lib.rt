//! Whether a constraint may be repaired before those that are left, and whether some conjunction of it passes its
//! tests, whatever is true.
#![tactic(auto)]

mod atoms;
mod covering;
mod placing;
mod sparing;
mod testing;
mod truths;

pub use covering::covers;
pub use placing::{may_be_first, relies_left};
pub use sparing::is_left;
pub use testing::way;
