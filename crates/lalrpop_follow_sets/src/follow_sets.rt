//! The lookahead sets of all reductions by one pass over the states: the follow sets of
//! nonterminals in states, and their unions (DeRemer and Pennello 1982).
pub mod edges;
mod includes;
mod initial_sets;
mod lookback;
mod nodes;
mod pass;
mod sets;
pub(crate) mod start;
mod tokens;
mod unions;
mod walk;

pub use crate::follow_sets::sets::FollowSets;
pub use crate::follow_sets::tokens::share_token;
