//! Typed model definition rules (OOPSLA 2003): those of a text, or the first fault in them.
#![tactic(auto)]

mod checks;
mod guards;
mod members;
mod pairs;
mod paths;
mod scopes;
mod typed;
mod typed_rules;

pub use typed::rules;
