//! The one way in which every command of the program runs. A command says what it does as a script:
//! which files it loads, and what it then saves or tells. A script runs over any shelf and any
//! output.
#![tactic(auto)]

mod moves;
mod playing;
mod status;

pub use moves::{Commands, Move, Stage, Told};
pub use playing::run;
pub use status::{Status, Verdict};
