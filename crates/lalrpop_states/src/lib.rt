//! Items, states and conflicts, for any lookahead.
//!
//! - `collections`: sparse maps, and maps from keys to lookaheads.
//! - `kernel_set`: kernels, numbered by their first appearance.
//! - `lookahead`: the trait of lookaheads, implemented by `Nil` and by sets of tokens.
//! - `lr1_core`: items, states, transitions, conflicts and errors.
#![tactic(auto)]

pub mod collections;
pub mod kernel_set;
pub mod lookahead;
pub mod lr1_core;
