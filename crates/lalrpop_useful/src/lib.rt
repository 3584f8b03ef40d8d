//! Useless and doubtful parts of a grammar, found exactly.
//!
//! - `cycles`: the nonterminals that derive themselves.
//! - `names`: sets of names.
//! - `productive`: the nonterminals that derive a list of terminals.
//! - `reachable`: the nonterminals of the lists that the start symbol derives.
//! - `repeats`: productions of one nonterminal with the same right side.
//! - `undefined`: the nonterminals that have no production.
#![tactic(auto)]

pub mod cycles;
pub mod names;
pub mod productive;
pub mod reachable;
pub mod repeats;
pub mod undefined;
mod users;
