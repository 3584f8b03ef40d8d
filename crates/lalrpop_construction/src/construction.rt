//! The construction of LR(0) and canonical LR(1) states, for any lookahead.
pub mod canonical;
pub mod closure;
mod conflict_free;
mod epsilon_moves;
pub mod kernel;
pub mod lookahead_build;
pub mod lr;
pub mod lr0;
pub mod numbered;
pub mod numbered_state;
mod reductions;
pub mod results;
mod state;
pub mod states;
pub mod tables_or_count;
mod transitions;
pub mod workspace;
