//! What answers mean, in words: what is wrong with a specification, what keeps an image from having
//! a layout, with numbers, and which constraints are violated, with values; and what is shown of an
//! image.
#![tactic(auto)]

mod answers;
mod asking;
mod chains;
mod converting;
mod explaining;
mod images;
mod limits;
mod lines;
mod listed;
mod needs;
mod outcomes;
mod plans;
mod reading;
mod refusals;
mod reports;
mod showing;
mod sources;
mod telling;
mod violations;

pub use answers::Shown;
pub use asking::{draw, show, tell};
pub use converting::from_c;
pub use explaining::explained;
pub use telling::Telling;
