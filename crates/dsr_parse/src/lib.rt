//! The text of a specification, read as a tree by its grammar, and printed from one.
#![tactic(auto)]

mod laws;
mod parser;
mod reader;

pub use dsr_lexer::{TokenFault, tokens};
pub use dsr_print::print;
pub use laws::{faults_are_unique, trees_are_unique};
pub use parser::{SyntaxFault, parse};
