//! Tokens and sets of tokens.
pub mod members;
pub mod token;
mod token_collection;
pub mod token_set;
