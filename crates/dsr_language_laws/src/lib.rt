//! What texts mean is typed, and its names are spelled as the grammar spells them: laws on the definitions.
//!
//! The functions do nothing when they run. Each carries its law as its contract.
#![tactic(auto)]

mod constraints;
mod rules;
mod spelling;

pub use constraints::constraints_without_faults_are_typed;
pub use rules::rules_without_faults_are_typed;
pub use spelling::names_are_spelled;
