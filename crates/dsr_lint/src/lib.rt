//! What a specification says nothing about, though it looks as if it did: declarations that nothing
//! fills or reads, references that nothing guards, and supplies that avoid too little.
#![tactic(auto)]

mod fields;
mod remarks;
mod supplies;
mod uses;

pub use remarks::push_lint;
