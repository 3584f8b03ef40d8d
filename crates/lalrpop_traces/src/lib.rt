//! Examples of input that lead to a conflict.
//!
//! - `trace`: backtraces, which are graphs, and the examples that their paths spell.
#![tactic(auto)]

pub mod trace;
