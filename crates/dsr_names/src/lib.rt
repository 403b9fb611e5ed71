//! Tables of names, what the names in rules and constraints stand for among the tables of
//! declarations, and the fault that is told of a specification among all that hold in it.
#![tactic(auto)]

mod comparing;
mod fields;
mod known;
mod named;
mod named_in_trees;
mod notes;
mod numbers;
mod quantifiers;
mod records;
mod refusals;
mod relations;
mod tables;
mod telling;
mod words;

pub use comparing::{differ, disagree, is_at, is_other_target, is_too_wide, width_bits};
pub use known::Known;
pub use named::Named;
pub use notes::{note_found, note_name};
pub use numbers::{enter, first_numbers, is_this};
pub use quantifiers::quant_of;
pub use records::path_field;
pub use refusals::SpecFault;
pub use relations::{
    first_pool, gives_numbers, has_other_source, has_other_target, has_other_targets, second_pool,
    values_others,
};
pub use tables::{TableNames, line_of, name_tables};
pub use telling::Told;
pub use words::{number_of, typed_bound, typed_compare, var_place};
