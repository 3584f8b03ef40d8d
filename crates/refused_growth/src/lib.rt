//! Allocations that are refused on purpose, for tests: the results of a call if memory ends in it.
#![tactic(auto)]

pub mod attempts;
mod refusing;
