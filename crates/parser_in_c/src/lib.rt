//! The text of a parser in C.
//!
//! - `file`: what a file has, and its text.
//! - `parts`: the file for a grammar.
#![tactic(auto)]

mod arrays;
mod driver;
mod enumerations;
pub mod file;
mod literals;
mod lookup;
pub mod parts;
