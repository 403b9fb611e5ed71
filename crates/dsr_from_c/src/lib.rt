//! A first specification for structures of C, from what `ptype /o` of gdb prints of them.
#![tactic(auto)]

mod reading;
mod spelling;
mod writing;

pub use reading::{Member, Structure, structures_of};
pub use writing::push_specification;
