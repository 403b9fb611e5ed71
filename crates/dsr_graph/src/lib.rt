//! The repair dependence graph of a specification: for each literal the templates that are listed,
//! and for each of these which constraints it breaks, and which literal it falsifies; and which
//! constraint relies on which.
//!
//! After the repair dependence graph of ICSE 2005.
#![tactic(auto)]

mod asking;
mod building;
mod causes;
mod edges;
mod excuses;
mod graphs;
mod happening;
mod kinds;
mod listings;
mod reasons;
mod variables;

pub use asking::{Position, breaks, falsifies, relies, ways};
pub use building::graph;
pub use causes::{constraint_causes, literal_causes};
pub use excuses::Excuses;
pub use graphs::Graph;
pub use reasons::{first_reason, may_falsify};
