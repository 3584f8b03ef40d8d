//! Texts, lists, bit vectors and collections, of which grammars and states are made.
//!
//! - `bit_vector`: bit vectors over slices of 64-bit words.
//! - `collections`: collections into which items are pushed, with multimaps, queues, sets and
//!   walks.
//! - `exact`: types whose `==` is `true` for equal values only.
//! - `memory`: the error `OutOfMemory`.
//! - `sequence`, `text`: a list and a text inside a value.
#![tactic(auto)]

pub mod bit_vector;
pub mod collections;
pub mod exact;
pub mod memory;
pub mod sequence;
pub mod text;
