//! Texts that show context sets and lane tables, and those of `case_files`.
pub mod context_set;
pub mod lane_table;

pub use case_files::show::{grammar, graph, states, words};
