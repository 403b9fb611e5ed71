//! What a text means as a specification: what its names stand for, the tables that it declares, its rules, its
//! constraints in normal form, and the faults that are told of it.
//!
//! The definitions stand in `specs/`, one file a subject. The model definition rules and the consistency constraints
//! are after OOPSLA 2003.
#![tactic(auto)]
