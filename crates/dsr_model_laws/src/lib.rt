//! Laws on models: facts, literals and consistency are decided, sizes are there and bounded,
//! functional relations have one target, and models depend on nothing but what rules read.
//!
//! The functions do nothing when they run. Each carries its law as its contract, so that those who
//! compute models or change images may rest on it.
#![tactic(auto)]

mod laws;

pub use laws::{
    consistency_is_decided, facts_are_decided, functional_relations_have_one_target,
    literals_are_decided, models_depend_on_what_is_read, sizes_are_bounded, sizes_are_there,
    violations_are_there,
};
