//! The reset of a record, and what the writes of an update write, where, and whether they are
//! needed.
//!
//! That data structures are repaired by writes to single fields is after OOPSLA 2003.
#![tactic(auto)]

mod resets;
mod values;
mod writes;

pub use resets::reset;
pub use values::picked_number;
pub use writes::{is_wanted, written_cell};
