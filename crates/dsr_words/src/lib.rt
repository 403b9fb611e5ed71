//! The words of the command line: those that the system gives, and the command that they ask for.
#![tactic(auto)]

mod commands;
mod given;

pub use commands::{Command, Task, command_of};
pub use given::words_of;
