//! The layout of a specification on an image, or why there is none; codes of slots, and cells of
//! records. A layout is the concrete view of OOPSLA 2003: where records lie, and what references
//! to them mean.
#![tactic(auto)]

mod cells;
mod code_checks;
mod count_checks;
mod faults;
mod fixed_fields;
mod instances;
mod laws;
mod layouts;
mod lookups;
mod places;
mod pool_checks;
mod pools;
mod references;
mod values;

pub use cells::cell;
pub use faults::LayoutFault;
pub use fixed_fields::is_bytewise;
pub use instances::{index_count, premise_pool};
pub use laws::{
    codes_are_of_slots, codes_fit_references, counts_fit_values, facts_lie_in_range,
    fields_lie_in_structures, heads_are_apart_from_pools, heads_fit_their_images,
    instances_are_few, least_kinds_are_told, parents_are_no_larger, ranges_share_bytes,
    records_fit_their_slots, structures_have_sizes,
};
pub use layouts::layout;
pub use lookups::{field_place, pool_numbers, record_count, set_pool};
pub use references::{Ref, code_of, slot_of};
