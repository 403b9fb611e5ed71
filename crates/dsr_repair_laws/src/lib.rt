//! What a repair chooses next can always be chosen and made, it changes neither the layout nor a
//! fixed field, and what it leaves is determined: laws on the steps of repairs.
//!
//! The functions do nothing when they run. Each carries its law as its contract.
#![tactic(auto)]

mod choosing;
mod laws;
mod making;

pub use choosing::{
    choices_are_complete, facts_to_go_are_there, templates_have_few_updates, updates_are_there,
};
pub use laws::{
    entries_are_one, puts_are_one, steps_are_one, steps_keep_fixed_fields, steps_keep_the_layout,
};
pub use making::{
    due_steps_can_be_made, due_steps_write_fields_of_the_head, due_steps_write_no_fixed_field,
    due_steps_write_what_rules_read,
};
