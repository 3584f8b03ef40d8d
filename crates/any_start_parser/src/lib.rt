//! Parses by tables for any start symbol, by the augmented grammar: its new start symbol has one
//! production, from it to the old start symbol.
//!
//! - `production`: the number of that production.
//! - `handler`: what takes the steps below the new start symbol.
//! - `events`: a run over the terminals of an iterator.
//! - `nodes`: the tree of the terminals of an iterator.
//! - `laws`: theorems on the expected tokens.
#![tactic(auto)]

pub mod events;
pub mod handler;
pub mod laws;
pub mod nodes;
pub mod production;
