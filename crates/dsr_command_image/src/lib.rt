//! The answers about an image: whether it is consistent by a specification, and what is saved and
//! told of a repair.
#![tactic(auto)]

mod checks;
mod repairs;
mod runs;
mod texts;

pub use checks::{check, violations_of};
pub use repairs::{Repaired, laid_out, repair};
pub use runs::{Run, repair_whole};
pub use texts::{need_told, report_told};
