//! When a choice of templates is a plan for a specification, and which sets of constraints leave none.
//!
//! The definitions stand in `specs/`. That a repair dependence graph accepts a specification where its
//! nodes can be put in order is after ICSE 2005; levels, and the choice of one template or test for
//! each literal, are this project's own.
#![tactic(auto)]

mod choices;
mod laws;
mod plans;
mod refusals;

pub use choices::{Choice, Row, Way, way_number, way_place};
pub use laws::stuck_sets_leave_no_plan;
pub use plans::Plan;
pub use refusals::{StuckEnd, StuckMember, StuckSet, StuckWay};
