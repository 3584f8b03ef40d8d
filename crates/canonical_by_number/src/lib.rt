//! Canonical LR(1) constructions in which sets of tokens are given by number.
//!
//! - `token_sets`: distinct sets of tokens, each with a number.
//! - `number_map`: maps from numbers of symbols or items to numbers of sets.
//! - `closure`: the closure of a kernel.
//! - `kernels`: distinct kernels, each with a number.
//! - `moves`: the kernels to which symbols lead.
//! - `conflicts`: the number of conflicts of a state.
//! - `states`: one state more.
//! - `counting`: the number of conflicts of all states.
//! - `canonical`: the canonical states, or the number of their conflicts.
#![tactic(auto)]

pub mod canonical;
pub mod closure;
pub mod conflicts;
pub mod counting;
pub mod kernels;
pub mod moves;
pub mod number_map;
pub mod states;
pub mod token_sets;
