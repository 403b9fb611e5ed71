//! What holds once a step was made, and that for each goal an update is applied: laws on steps and
//! on applications.
//!
//! The functions do nothing when they run. Each carries its law as its contract.
#![tactic(auto)]

mod applications;
mod steps;

pub use applications::{each_goal_has_an_application, exactly_one_has_applications_of_both_kinds};
pub use steps::{
    additions_fire, guards_made_false_stop_instances, picked_numbers_fail,
    targets_made_none_stop_instances, values_are_set, writes_of_additions_may_stand_together,
};
