//! Structures, pools, sets, relations and supplies of a specification: their typed tables, or the
//! first fault in them.
#![tactic(auto)]

mod checks;
mod expr_checks;
mod field_checks;
mod lookups;
mod names;
mod set_checks;
mod structure_checks;
mod typed;
mod typed_exprs;
mod typed_sets;
mod typed_structures;

pub use dsr_names::SpecFault;
pub use typed::structures;
