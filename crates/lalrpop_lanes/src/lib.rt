//! Lanes: the tokens that are found by tracing back over LR(0) states, and lane tables.
//!
//! - `lane_table`: the tracer of lanes, and the lane table.
#![tactic(auto)]

pub mod lane_table;
