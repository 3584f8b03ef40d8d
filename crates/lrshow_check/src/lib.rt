//! The check of a grammar by the program `lrshow`, and the tables that its other forms show.
//!
//! - `built`: the tables of a grammar, or its conflicts.
//! - `check`: a check of a file.
//! - `lines`: texts of several lines, as a terminal can show them.
#![tactic(auto)]

pub mod built;
pub mod check;
mod findings;
pub mod lines;
