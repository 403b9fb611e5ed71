//! Typed consistency constraints (OOPSLA 2003): those of a text, or the first fault in them.
#![tactic(auto)]

mod atoms;
mod checks;
mod formulas;
mod negations;
mod notes;
mod pools;
mod scopes;
mod sizes;
mod typed;
mod typed_atoms;
mod typed_forms;
mod typed_formulas;
mod widths;

pub use typed::constraints;
