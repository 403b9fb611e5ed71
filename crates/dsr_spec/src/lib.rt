//! The typed specification of a tree, or of a text: declarations, rules and constraints, or the first fault in them.
#![tactic(auto)]

mod laws;
mod readings;
mod typed;

pub use dsr_names::SpecFault;
pub use laws::specifications_are_unique;
pub use readings::specification;
pub use typed::spec;
