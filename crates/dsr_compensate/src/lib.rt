//! The updates that are listed for a literal: those that are tried for it, without and with writes that keep other
//! rules from giving something new, less those that can't be made as they are judged, or would undo what they are for.
#![tactic(auto)]

mod combining;
mod judging;
mod listing;
mod lists;
mod making;
mod owner;
mod passes;
mod preventing;
mod serving;

pub use judging::Judged;
pub use lists::listed;
pub use owner::Owner;
pub use preventing::compensations;
pub use serving::is_functional;
