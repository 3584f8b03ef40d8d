//! Grammars, sets of tokens, items and states: what the construction of LR(1) tables and the parser
//! share. This crate passes on the modules of five smaller crates. What most callers need can be named
//! without its module, as in `use lalrpop_base::{Grammar, Lr1State};`.
//!
//! - Of `lalrpop_collections`: `exact`, `memory`, `sequence`, `text`.
//! - Of `lalrpop_grammar`: `first`, `repr`, `spread`.
//! - Of `lalrpop_numbers`: `numbers`.
//! - Of `lalrpop_states`: `collections`, `kernel_set`, `lookahead`, `lr1_core`.
//! - Of `lr1_theory`: `laws`.
#![tactic(auto)]

pub use lalrpop_collections::memory::OutOfMemory;
pub use lalrpop_collections::{exact, memory, sequence, text};
pub use lalrpop_grammar::first::FirstSets;
pub use lalrpop_grammar::repr::{
    Grammar, NonterminalString, Production, Symbol, TerminalSet, TerminalString, is_well_formed,
};
pub use lalrpop_grammar::{first, repr, spread};
pub use lalrpop_numbers::numbers;
pub use lalrpop_states::lookahead::{Token, TokenRef, TokenSet};
pub use lalrpop_states::lr1_core::state::{
    Action, BuildError, Conflict, Lr1Conflict, Lr1State, Lr1TableConstructionError, StateIndex,
    TableConstructionError,
};
pub use lalrpop_states::lr1_core::{Item, Lr0Item, Lr1Item, are_coherent};
pub use lalrpop_states::{collections, kernel_set, lookahead, lr1_core};
pub use lr1_theory::laws;
