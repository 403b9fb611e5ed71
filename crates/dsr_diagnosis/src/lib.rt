//! What is wrong with the text of a specification, told to a person: the place, what stands there,
//! what could stand there, and what may help.
#![tactic(auto)]

mod diagnosis;
mod expected;
mod foreign;
mod hints;
mod tokens;
mod unexpected;

pub use diagnosis::{diagnose, shown};
pub use dsr_passages::Diagnosis;
