//! Why an image has no layout, told to a person: with the numbers of pools, structures and codes as
//! far as they are known.
#![tactic(auto)]

mod extents;
mod layouts;
mod pushes;
mod scenes;

pub use layouts::push_fault;
