//! Parses by parse tables whose refusals carry the expected tokens.
//!
//! - `parse`: a run over the terminals of an iterator.
//! - `nodes`: the tree of the terminals of an iterator.
//! - `names`: the names of expected tokens, for a message.
//! - `error`: why a run ends without a parse.
#![tactic(auto)]

pub mod error;
mod kept;
pub mod names;
pub mod nodes;
pub mod parse;
