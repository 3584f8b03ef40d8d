//! Tests of parse trees and examples that no case file can express: deep trees, and copies whose
//! allocations are refused.
#![tactic(auto)]

#[cfg(test)]
mod copies;
#[cfg(test)]
mod trees;
