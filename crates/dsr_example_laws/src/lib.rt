//! That the laws on templates and on the repair dependence graph speak of something: for each goal
//! and for each excuse there is an application to which they apply.
//!
//! The functions do nothing when they run. Each carries its law as its contract.
#![tactic(auto)]

mod excuses;
mod templates;

pub use excuses::each_excuse_is_met;
pub use templates::{
    each_goal_has_a_tried_example, templates_that_add_are_listed,
    templates_that_set_or_take_away_are_listed,
};
