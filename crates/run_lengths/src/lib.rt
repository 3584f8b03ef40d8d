//! Theorems on how many steps the runs of a parser make.
//!
//! - `laws`: the theorems, as contracts of functions that do nothing.
#![tactic(auto)]

pub mod laws;
