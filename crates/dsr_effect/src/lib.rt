//! What an update may change, found in the specification alone: for each set and relation whether
//! it may gain or lose facts, and of which records.
//!
//! That updates are judged without an image is after the repair dependence graph of ICSE 2005.
#![tactic(auto)]

mod avoided;
mod changes;
mod context;
mod fields;
mod firing;
mod flows;
mod readings;
mod rows;
mod tags;
mod touching;
mod values;

pub use avoided::avoided_sets;
pub use context::{Context, effect};
pub use fields::{are_related, place_pool};
pub use rows::{may_change, tags_of};
