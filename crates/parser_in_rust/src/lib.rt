//! The text of a parser in Rust.
//!
//! - `file`: what a file has, and its text.
//! - `parts`: the file for a grammar.
#![tactic(auto)]

mod arrays;
mod driver;
mod enumerations;
pub mod file;
mod interface;
mod lists;
mod literals;
pub mod parts;
