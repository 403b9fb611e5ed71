//! What a specification declares, looked up: structures and their ancestors, pools and fields,
//! literals, and how numbers compare.
#![tactic(auto)]

mod comparing;
mod constraints;
mod fields;
mod pools;
mod structures;

pub use comparing::compares;
pub use constraints::{element_of, literal_at};
pub use fields::{declared_field, referred_pool, width_bits};
pub use pools::{pool_at, pool_of_var};
pub use structures::{descends, parent};
