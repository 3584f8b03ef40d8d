//! Tests of the construction of states that no case file can express: a lookahead of a user's own,
//! and the items that other lookaheads give by a call that no construction makes.
#![tactic(auto)]

#[cfg(test)]
mod asked;
#[cfg(test)]
mod moves;
pub mod word_lookahead;
#[cfg(test)]
mod word_states;
