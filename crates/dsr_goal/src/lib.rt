//! The updates that are tried to make a literal of a constraint true, found in the specification
//! alone: which cells of which record they write, and what they write there.
#![tactic(auto)]

mod adding;
mod fields;
mod guards;
mod joining;
mod kinds;
mod known;
mod literals;
mod options;
mod places;
mod raw_templates;
mod removing;
mod supplies;
mod values;

pub use guards::guard_write;
pub use kinds::is_own;
pub use known::Known;
pub use raw_templates::{raw, raw_of};
pub use removing::counted_symbol;
pub use values::only_giver;
