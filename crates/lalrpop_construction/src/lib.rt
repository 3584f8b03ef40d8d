//! LR(0) and canonical LR(1) states, for any lookahead.
//!
//! - `construction`: the construction of states.
//! - `options`: the method by which tables are made, and its limits.
#![tactic(auto)]

pub mod construction;
pub mod options;
