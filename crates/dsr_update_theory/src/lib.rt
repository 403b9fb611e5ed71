//! What is known of a constraint's variables, the facts that constraints give each other, the
//! updates towards the goal of a literal, and what an update may change, for every specification
//! and every image.
//!
//! The definitions stand in `specs/`, one file a subject. That a literal has updates which make it
//! true, and that these and what they may break are found without an image, is after the repair
//! dependence graph of ICSE 2005.
#![tactic(auto)]

mod effects;

pub use effects::{Direction, Effect, Tag, Tags};
