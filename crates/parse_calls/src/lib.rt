//! Actions, gotos and parses by tables as a list of 32-bit numbers, from memory to memory.
//!
//! - `action`: a call for the action of a state on a token.
//! - `goto`: a call for the goto of a state on a nonterminal.
//! - `parse`: a call that parses tokens.
//! - `expected`: a call for the tokens that may come next.
#![tactic(auto)]

pub mod action;
pub mod expected;
pub mod goto;
pub mod lookups;
pub mod machine;
pub mod parse;
pub mod places;
mod room;
pub mod turns;
