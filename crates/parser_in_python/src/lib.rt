//! The text of a parser in Python.
//!
//! - `file`: what a file has, and its text.
//! - `parts`: the file for a grammar.
#![tactic(auto)]

mod classes;
mod driver;
pub mod file;
mod literals;
pub mod parts;
mod tables;
