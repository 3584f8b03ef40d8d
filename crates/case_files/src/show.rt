//! Texts that show grammars, states and their parts.
pub mod grammar;
pub mod graph;
pub mod states;
pub mod words;
