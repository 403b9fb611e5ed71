//! The input of a trial run, from one number: a linked list with links that lead astray.
#![tactic(auto)]

mod images;
mod texts;

pub use images::trial_image;
pub use texts::trial_text;

#[cfg(test)]
mod tests;
