//! Reports held against images: whether a report tells the repair of an image, found by replaying
//! it, and the image before a repair, found by taking back what its report tells.
#![tactic(auto)]

mod auditing;
mod differences;
mod faults;
mod laws;
mod replaying;
mod texts;

pub use auditing::audit;
pub use dsr_undo::undo;
pub use faults::AuditFault;
pub use laws::audits_have_one_outcome;
