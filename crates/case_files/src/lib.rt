//! Case files, their questions, and the texts that show grammars and states in them.
//!
//! - `case_file`: the cases of a file.
//! - `question`: the call and the arguments of a question.
//! - `show`: texts that show grammars, states and their parts.
#![tactic(auto)]

pub mod case_file;
pub mod question;
pub mod show;
