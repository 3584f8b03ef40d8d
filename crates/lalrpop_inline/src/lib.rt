//! Inlining of the nonterminals of a grammar that are marked for it.
//!
//! - `inline`: the order in which marked nonterminals are inlined, and the inliner.
#![tactic(auto)]

pub mod inline;
