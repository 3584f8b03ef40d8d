//! The time of each part of making the tables of a grammar.
//!
//! - `timing`: prints the times for a file.
#![tactic(auto)]

pub mod timing;
