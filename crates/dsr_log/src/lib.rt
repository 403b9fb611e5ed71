//! The log of a repair, in three rows of memory: what each entry is beside its sets and bytes, and
//! the sets and the bytes of all entries, one behind the other. An entry takes no memory of its
//! own, and is written and read as one value.
#![tactic(auto)]

mod entries;
mod logs;

pub use entries::{EntryHead, EntryRef};
pub use logs::{Entries, Log};
