//! Certificates of plans, with the answers that tell of them; and laws: certificates of plans are valid, and each
//! choice that a certificate may say is read back.
#![tactic(auto)]

mod certificates;
mod certifying;
mod faults;
mod verifying;

pub use certificates::{certificates_of_plans_are_valid, choices_are_read_back};
pub use certifying::{Certified, certify};
pub use faults::fault_told;
pub use verifying::verify;
