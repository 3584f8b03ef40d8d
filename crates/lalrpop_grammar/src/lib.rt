//! Grammars, their tokens and FIRST sets, and the definitions of LR(1) parsing.
//!
//! - `first`: FIRST sets.
//! - `laws`: laws of the types of grammars.
//! - `lookahead`: tokens, and sets of tokens.
//! - `repr`: normalised grammars, and `augment`, which makes a new start symbol.
//! - `spread`: the least sets over the edges of a graph.
#![tactic(auto)]

pub mod first;
pub mod laws;
pub mod lookahead;
pub mod repr;
pub mod spread;
