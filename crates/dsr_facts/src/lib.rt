//! The facts that constraints give each other, and the sets of which a constraint's variables are
//! known to be members, whatever the image.
#![tactic(auto)]

mod claims;
mod gathering;
mod memberships;

pub use gathering::{Facts, facts_before};
pub use memberships::{MOST_SETS, has_guards, known, known_sets};
