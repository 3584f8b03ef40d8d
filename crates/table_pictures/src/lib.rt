//! Pictures of tables: a graph for Graphviz, and a page for a browser.
#![tactic(auto)]

pub mod dot;
mod edge_pairs;
pub mod edges;
pub mod escape;
mod finding;
pub mod near;
mod nodes;
pub mod page;
mod rounds;
mod script;
mod style;
mod symbols;
pub mod to_conflicts;
