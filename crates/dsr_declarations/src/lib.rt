//! What a text of the grammar declares: declarations by their names and by places in the text, the
//! fields of records, and what a name that stands at some place is for.
#![tactic(auto)]

mod declared;
mod places;
mod records;
mod roles;

pub use declared::{
    Declared, declared_as, head_of, is_head, named, own_field, owner_of, target_of,
};
pub use places::{Placed, around};
pub use records::{
    field_of, is_other_head, parent_of, place_in, place_of, pool_of, read_field, record_name,
};
pub use roles::{Role, candidates, in_words, many_in_words, one_in_words, role_of};
