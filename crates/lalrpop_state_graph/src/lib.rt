//! The graph of the states of a table, and new numbers for the states.
//!
//! - `renumber`: new numbers, by which the states with a goto come first.
//! - `state_graph`: the shifts and gotos of states, by source and by target.
#![tactic(auto)]

pub mod renumber;
pub mod state_graph;
