//! The names of constants that are made of the texts of symbols.
//!
//! - `upper`: the words of a text in capitals, with underscores between them.
//! - `camel`: the words of a text, each of which begins with a capital.
#![tactic(auto)]

pub mod camel;
mod camel_signs;
mod classes;
mod signs;
pub mod upper;
