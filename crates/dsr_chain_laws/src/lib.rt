//! The shortest chains of facts, and of those the first: laws on them. The functions do nothing
//! when they run, and carry their laws as their contracts.
#![tactic(auto)]

mod laws;

pub use laws::{
    chains_are_read_back, first_chains_are_shortest, first_chains_are_unique, levels_are_lengths,
};
