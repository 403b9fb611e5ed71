//! An image over bytes that someone else holds: only the pages that are written are copied.
#![tactic(auto)]

mod front;
mod overlay;
mod page;

pub use overlay::Overlay;
