//! What the program `lrshow` shows if a parser is asked for.
//!
//! - `shown`: the file of a grammar, or why there is none.
//! - `plain`: the same for a grammar as it is.
//! - `augmented`: the same for a grammar with a new start symbol.
//! - `reasons`: the file of tables is shown, or why there is none.
//! - `file`: the text of the file of tables.
#![tactic(auto)]

mod augmented;
mod file;
mod plain;
mod reasons;
pub mod shown;
