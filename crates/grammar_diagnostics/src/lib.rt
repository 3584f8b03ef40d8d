//! Everything that is wrong or doubtful with a grammar: the faults of its text, and warnings about
//! a grammar without faults.
//!
//! - `text_errors`: the lines of a text that are no grammar lines.
//! - `reason`, `hint`: what is wrong with a line, and a way out.
//! - `warnings`: what is doubtful with a grammar.
//! - `cycle`: the way from a cyclic nonterminal back to itself.
//! - `messages`, `nearest`: warnings in words, and the name that may be meant by an undefined one.
//! - `places`, `text_lines`: the numbers of lines, and the lines of a text.
//! - `warning_places`: the place of a warning, and that of a name.
#![tactic(auto)]

pub mod cycle;
mod faults;
pub mod hint;
pub mod messages;
pub mod nearest;
mod pieces;
pub mod places;
pub mod reason;
mod tests;
pub mod text_errors;
pub mod text_lines;
pub mod warning_places;
pub mod warnings;
