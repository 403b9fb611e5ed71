//! How each constraint of a specification would be repaired: its level, and for each literal the
//! templates that are listed for it, which of them the plan takes, and what each breaks; and the
//! same as a graph for Graphviz.
#![tactic(auto)]

mod dot;
mod templates;
mod variables;
mod ways;

pub use dot::push_graph;
pub use variables::variables_of;
pub use ways::push_repairs;
