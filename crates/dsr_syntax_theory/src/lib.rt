//! What a text says by its grammar alone: its tokens, what the grammar derives of them, its tree and its canonical
//! text, and the faults of a text that has no tree.
//!
//! The definitions stand in `specs/`, one file a subject.
#![tactic(auto)]
