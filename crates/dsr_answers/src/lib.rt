//! What is answered, as text: verdicts with the violated bindings, and refusals of texts and of
//! images. Where memory is wanting nothing is told.
#![tactic(auto)]

mod layouts;
mod names;
mod refusals;
mod texts;
mod verdicts;

pub use layouts::layout_refused;
pub use names::{constraint_name, field_name, pool_name, push_binding, push_element, symbol_name};
pub use refusals::{meaning_refused, syntax_refused};
pub use texts::{push, push_behind, push_named, push_number, told};
pub use verdicts::verdict;
