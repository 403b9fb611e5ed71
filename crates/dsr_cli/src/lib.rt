//! The commands: what each does next once a file came that it waits for, and the run of the whole
//! program.
#![tactic(auto)]

mod program;
mod waiting;

pub use dsr_script::{Status, Verdict};
pub use program::run;
pub use waiting::Waiting;
