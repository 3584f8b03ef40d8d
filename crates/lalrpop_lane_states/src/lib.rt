//! The lane method: LR(0) states whose reductions get the tokens of their lanes. States are copied
//! if two actions share a token.
//!
//! - `lane_table`: the construction of lane tables, and the modules of `lalrpop_lanes`.
#![tactic(auto)]

pub mod lane_table;
