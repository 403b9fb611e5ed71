//! What is told of a text of the grammar that means no specification: names that aren't declared,
//! declarations that don't fit, constants that are too wide.
#![tactic(auto)]

mod atoms;
mod guards;
mod limits;
mod meaning;
mod members;
mod pairs;
mod twice;
mod unknown;
mod views;
mod widths;

pub use meaning::refused;
