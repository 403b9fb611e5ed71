//! Cells over the bytes of an image: what was put is got, and every other bit stays.
#![tactic(auto)]

mod bits;
mod image_bytes;
mod numbers;
mod whole;

pub use image_bytes::ImageBytes;
pub use whole::Whole;
