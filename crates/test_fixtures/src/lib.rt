//! Fixtures that tests of several crates share: grammars, terminals and sets of tokens from texts,
//! and calls whose allocations are refused.
#![tactic(auto)]

pub mod growths;
pub mod texts;
