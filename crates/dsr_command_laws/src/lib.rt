//! What a run says, by the files that a shelf tells: of images and texts, of facts and lost
//! records, of plans and certificates, of repairs, of their reports, of repairs that are taken
//! back, of edits, of trials, and of words that ask for nothing.
//!
//! The laws are the contracts of functions that do nothing when they run.
#![tactic(auto)]

mod audits;
mod edits;
mod facts;
mod images;
mod plans;
mod repairs;
mod undos;

pub use audits::{reports_are_audited, sound_repairs_are_taken_back};
pub use edits::images_are_edited;
pub use facts::{facts_are_explained, lost_records_are_listed};
pub use images::{images_are_checked, texts_are_printed, usage_is_told};
pub use plans::{certificates_are_verified, plans_are_certified, plans_are_found};
pub use repairs::{images_are_repaired, trials_are_told};
pub use undos::repairs_are_undone;
