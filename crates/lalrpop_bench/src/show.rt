//! Texts that show traces and examples.
pub(crate) mod example;
pub(crate) mod trace_graph;
