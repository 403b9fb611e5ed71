//! Truth of constraints over a model (OOPSLA 2003): of literals, of constraints at their bindings,
//! and the violated bindings in order.
#![tactic(auto)]

mod literals;
mod violated;
mod walks;

pub use literals::{holds, literal};
pub use violated::{first_from, first_violated, violations};
