//! Lanes, and the table of their tokens.
pub mod context_set;
pub mod lane;
mod own;
pub mod table;

pub use own::{have_own_items, reduces_own};
