//! What the programs `lrtab` and `lrshow` print of a grammar, its tables as numbers, and a check of
//! tables, from memory to memory.
#![tactic(auto)]

pub mod ask;
pub mod check;
mod put;
pub mod tables;
mod words;
