//! Theorems on the calls of `parse_calls` for the numbers of tables.
//!
//! - `laws`: the actions, gotos and parses of the calls are those of the states.
#![tactic(auto)]

pub mod laws;
