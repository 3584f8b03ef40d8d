//! What the program `lrshow` prints for its arguments, over any reader and writers.
#![tactic(auto)]

mod request;
pub mod run;
mod shown;
mod tree;

pub use lrshow_arguments::words;
