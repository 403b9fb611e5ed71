//! Reports that are read, and the first wrong lines of other texts, apart from the crates
//! themselves, so that those are proved without tests.
#![tactic(auto)]

#[cfg(test)]
mod texts;
