//! A repair of an image by a plan is one run: laws on what is due, and on runs. Each function does
//! nothing when it runs, and carries its law as its contract.
#![tactic(auto)]

mod laws;

pub use laws::{
    due_entries_are_one, due_steps_are_one, part_runs_are_fronts, part_runs_keep_fixed_fields,
    runs_are_one, runs_keep_the_layout, turns_are_one,
};
