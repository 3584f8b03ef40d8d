//! Witnesses of ambiguity: two different derivations of one list of symbols from one nonterminal.
//!
//! - `derivation`: derivation trees, whose leaves are any symbols.
//! - `laws`: what a witness says of sentences.
//! - `search`: the search for a witness of a conflict.
//! - `witness`: witnesses, and their check.
#![tactic(auto)]

pub mod derivation;
pub mod laws;
pub mod search;
pub mod witness;
