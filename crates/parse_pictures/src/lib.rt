//! Pictures of parses: the tree of a parse as lines and as a graph, and why an input is refused.
//!
//! - `expected`: the tokens that may come next, and how many terminals a parse takes.
//! - `graph`: a tree as a graph, for Graphviz.
//! - `lines`: a tree as lines, one for each node.
//! - `refusal`: the message for an input that is refused.
#![tactic(auto)]

mod escape;
pub mod expected;
pub mod graph;
pub mod lines;
mod nodes;
pub mod refusal;
