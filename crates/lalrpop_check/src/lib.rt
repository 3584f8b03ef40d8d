//! The check of tables from anywhere.
//!
//! - `check`: `check_tables`. If it returns `true`, states are faithful to a grammar.
#![tactic(auto)]

pub mod check;
