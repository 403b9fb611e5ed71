//! The report of each run can be read back: laws on the entries of runs and their reports, and a
//! call that writes a report and reads it. The functions of the laws do nothing when they run; each
//! carries its law as its contract.
#![tactic(auto)]

mod back;
mod laws;

pub use back::read_run;
pub use laws::{
    own_field_names_are_read_back, readings_are_one, readings_have_one_report, runs_are_reported,
};
