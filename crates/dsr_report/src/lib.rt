//! What a repair did, as a text: each of its steps, with all that it changed.
#![tactic(auto)]

mod texts;

pub use dsr_log::Log;
pub use texts::{
    push_change, push_end, push_entries, push_entry, push_reset, push_set, push_update, text,
};
