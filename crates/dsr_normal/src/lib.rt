//! The disjunctive normal form of a constraint's body.
#![tactic(auto)]

mod atoms;
mod building;
mod faults;
mod laws;
mod normalizing;
mod sizes;
mod values;

pub use faults::NormalFault;
pub use laws::{atoms_are_told_apart, different_atoms_are_all, pushed_formulas_are_distributed};
pub use normalizing::normal;
