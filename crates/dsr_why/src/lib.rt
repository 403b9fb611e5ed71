//! Why a fact is in the model of an image: the first of its shortest chains. A search in breadth
//! comes to each member of a premise once, and keeps the first of the instances that give it; then
//! the chain is read back from the fact.
#![tactic(auto)]

mod arrivals;
mod chains;
mod rows;
mod search;

pub use chains::chain;
