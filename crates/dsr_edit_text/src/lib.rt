//! Scripts of edits: their text, read as groups of lines that set values.
//!
//! A line is read leniently; what was read is printed, and compared with the line.
#![tactic(auto)]

mod faults;
mod lines;
mod names;
mod reading;

pub use faults::ScriptFault;
pub use lines::SetLine;
pub use reading::read;
