//! Whether the change of a byte changes a bit of a fixed field, found without memory.
#![tactic(auto)]

mod changes;
mod places;
mod values;

pub use changes::{FixedBits, changes_fixed};
