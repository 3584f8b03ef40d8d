//! LR(1) tables of a grammar. This crate passes on modules of smaller crates. What most callers need
//! can be named without its module, as in `use lalrpop_tables::{Options, build_states};`.
//!
//! - `build`: LR(1) states by either method.
//! - `build_lalr`: the collapse to LALR(1) states.
//! - `laws`: what a construction over any lookahead promises with sets of tokens, and without
//!   lookahead.
//! - `lr1`: `build_states`.
//! - Of `lalrpop_check`: `check`.
//! - Of `lalrpop_lane_states` and `lalrpop_lanes`: `lane_table`.
//! - Of `lalrpop_state_graph`: `state_graph`.
#![tactic(auto)]

pub mod build;
pub mod build_lalr;
pub mod laws;
pub mod lr1;

pub use build::{Method, Options, TablesOrCount};
pub use lalrpop_check::check;
pub use lalrpop_check::check::check_tables;
pub use lalrpop_lane_states::lane_table;
pub use lalrpop_state_graph::state_graph;
pub use lr1::{build_states, build_states_or_count};
