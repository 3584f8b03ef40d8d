//! Tables for running a parser, made once from states: packed rows of numbers.
//!
//! - `table`: a table of actions and gotos by number.
//! - `build`: the table of states.
//! - `error`: why states have no table.
#![tactic(auto)]

mod action_rows;
pub mod build;
mod cells;
pub mod error;
mod numbering;
mod packing;
mod rows;
pub mod table;
mod targets;
