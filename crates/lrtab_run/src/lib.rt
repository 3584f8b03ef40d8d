//! What the program `lrtab` prints for its arguments, over any reader and writers.
#![tactic(auto)]

pub mod explain;
pub mod run;
mod shown;
pub mod words;

pub use program_answers::{answer, ask, host, output, tell};
