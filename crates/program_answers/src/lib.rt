//! What programs over a grammar file share: the result for a request, and how it is written.
//!
//! - `ask`: what a program can be asked of a grammar.
//! - `answer`: the result for a request and a file.
//! - `tell`: how a result is written. `output` writes a whole text.
//! - `words`: arguments that both programs have.
//! - `host`: what a program gets from the system.
#![tactic(auto)]

pub mod answer;
pub mod ask;
pub mod host;
pub mod output;
pub mod tell;
pub mod words;
