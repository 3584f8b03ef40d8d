//! Parts of the texts of generated files.
//!
//! - `bits`: how many bits the cells of an array have.
//! - `numbers`: the lines of an array of numbers.
//! - `fixed`: a fixed text in which names have a prefix.
//! - `parts`: constants and arrays.
#![tactic(auto)]

pub mod bits;
pub mod fixed;
pub mod numbers;
pub mod parts;
