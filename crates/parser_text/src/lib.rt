//! Files that parse by the tables of a grammar, as texts.
//!
//! - `c`, `rust`, `python`: the file of a language.
//! - `packing`: the arrays of a parse table.
//! - `error`: why a parse table has no file.
#![tactic(auto)]

mod action_rows;
mod arrays;
pub mod c;
pub mod error;
mod goto_rows;
mod listing;
pub mod packing;
mod parts;
pub mod python;
pub mod rust;
mod sides;
mod texts;
