//! What the constants of a generated parser are made of: names and comments.
//!
//! - `grammar`: the symbols and the productions of a grammar, as texts.
//! - `style`: the styles of names.
//! - `names`: the names of the symbols and of the productions of a grammar.
//! - `distinct`: names that differ.
//! - `comments`: the comments of symbols and of productions.
//! - `constants`: names with comments.
//! - `heading`: the comment at the top of a file.
//! - `laws`: theorems on names.
#![tactic(auto)]

mod comment_lists;
pub mod comments;
pub mod constants;
pub mod distinct;
pub mod grammar;
pub mod heading;
pub mod laws;
pub mod names;
mod right_sides;
pub mod style;
