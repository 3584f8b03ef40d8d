//! Parse trees as nodes in one list.
//!
//! - `node`: a node.
//! - `builder`: a handler that adds a node for each step of a run.
//! - `parse`: the tree of the terminals of an iterator.
//! - `tree`: the nodes of a finished tree.
//! - `error`: why a node is not added.
//! - `laws`: the theorems.
#![tactic(auto)]

pub mod builder;
pub mod error;
pub mod laws;
pub mod node;
pub mod parse;
pub mod tree;
mod walk;
