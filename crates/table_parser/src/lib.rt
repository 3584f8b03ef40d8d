//! Parses by parse tables: a handler takes the steps of a run.
//!
//! - `handler`: what takes the steps.
//! - `machine`: a run that is given one terminal after the other.
//! - `events`: a run over the terminals of an iterator.
//! - `expected`: the tokens that may come next.
//! - `values`: a stack of values, which semantic actions make.
//! - `error`: why a run ends without a parse.
#![tactic(auto)]

pub mod error;
pub mod events;
pub mod expected;
pub mod handler;
pub mod machine;
pub mod values;
