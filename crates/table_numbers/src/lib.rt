//! LR(1) tables as a list of 32-bit numbers, for programs of any language.
//!
//! - `numbers`: the numbers of states, and the states of numbers.
//! - `tables`: tables by number, between states and numbers.
//! - `number`: the tables of states.
//! - `items`: the tables of states, with their items.
//! - `layout`: the numbers of tables.
//! - `parse`: the tables of numbers.
//! - `states`: the states of tables, with their items or without.
//! - `parse_table`: the parse table of numbers.
//! - `laws`: theorems on numbers of tables.
//! - `error`: why there are no numbers, or no tables.
#![tactic(auto)]

pub mod error;
pub mod items;
pub mod laws;
pub mod layout;
mod made_items;
mod names;
pub mod number;
mod numbering;
pub mod numbers;
pub mod parse;
pub mod parse_table;
pub mod states;
pub mod tables;
