//! Text that programs for tests collect line by line and print at once, with declarations and templates in words.
#![tactic(auto)]

mod declarations;
mod lines;
mod templates;

pub use declarations::add_declarations;
pub use lines::Lines;
pub use templates::add_template;
