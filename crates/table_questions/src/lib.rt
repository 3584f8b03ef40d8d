//! Questions on FIRST sets, states, lanes and checks, and the texts of their results.
#![tactic(auto)]

pub mod ask;
pub mod show;

pub use case_files::question;
