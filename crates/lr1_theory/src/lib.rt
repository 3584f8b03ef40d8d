//! Theorems on the definitions of LR(1) parsing, and on the contents of states.
//!
//! - `laws`: the theorems, as contracts of functions that do nothing.
#![tactic(auto)]

pub mod laws;
