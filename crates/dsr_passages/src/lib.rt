//! Passages of a specification's text as they are told to a person: the tokens round a place, where
//! it stands, words that are close to another one, and what is wrong there.
#![tactic(auto)]

mod diagnosis;
mod lines;
mod names;
mod near;
mod scene;
mod words;

pub use diagnosis::Diagnosis;
pub use lines::{Spot, line_of, push_before, push_behind, spot_of};
pub use names::{Names, push_quoted};
pub use near::{is_near, meant_by};
pub use scene::{
    Declaration, Scene, begun_by, count_before, keyword_in, length_of, name_in, number_in, part,
    sign_in,
};
pub use words::Words;
