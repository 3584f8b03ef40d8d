//! The follow sets of nonterminals in states, which give the tokens of all lanes, by one pass over
//! the states.
//!
//! - `follow_sets`: the pass (DeRemer and Pennello 1982).
#![tactic(auto)]

pub mod follow_sets;
