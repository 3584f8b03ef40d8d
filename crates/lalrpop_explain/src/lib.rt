//! Explained conflicts: the items of their actions, with examples of input.
//!
//! - `explain`: the explanation of the conflicts of an error.
#![tactic(auto)]

pub mod explain;
