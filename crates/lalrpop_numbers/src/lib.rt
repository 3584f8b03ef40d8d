//! Grammars by number, so that a construction compares no text.
//!
//! - `numbers`: the symbols and dotted productions of a grammar by number.
#![tactic(auto)]

pub mod numbers;
