//! Images told to a person: records by their fields, sets and relations by what is in them, literals,
//! and violated constraints with the truth of each of their literals.
#![tactic(auto)]

mod atoms;
mod facts;
mod images;
mod listing;
mod literals;
mod names;
mod pairs;
mod pictures;
mod records;
mod values;
mod violated;

pub use images::{ImageModel, image_model};
pub use listing::{push_set, push_summary};
pub use literals::{Variables, push_literal, push_measure, push_var};
pub use names::{push_binding, push_element};
pub use pairs::push_relation;
pub use pictures::push_picture;
pub use records::{push_record, record_structure};
pub use values::{field_value, is_member, is_pair, value_after};
pub use violated::push_violation;
