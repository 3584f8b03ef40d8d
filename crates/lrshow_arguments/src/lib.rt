//! The arguments of the program `lrshow`.
//!
//! - `words`: what they ask for.
//! - `help`: the texts that are written without a file.
#![tactic(auto)]

pub mod help;
pub mod words;
