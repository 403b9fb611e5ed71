//! Certificates of plans: their text, what is wrong with a text, and what keeps a choice from
//! being a plan.
#![tactic(auto)]

mod faults;
mod flaws;
mod laws;
mod lines;
mod reading;
mod verifying;
mod writing;

pub use faults::CertFault;
pub use laws::{flawless_choices_are_plans, plans_have_no_flaw};
pub use reading::read_cert;
pub use verifying::verify;
pub use writing::write_cert;
