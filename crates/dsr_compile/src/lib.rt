//! What a text means, or the answer that tells why it means nothing.
#![tactic(auto)]

mod readings;

pub use readings::{Reading, read};
