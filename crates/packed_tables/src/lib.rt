//! Tables of numbers, packed into the arrays by which a generated parser looks up its actions.
//!
//! - `packed`: the arrays, and the lookup of an action and of a goto.
//! - `pack`: packs the rows of states. It looks up each number before it returns the arrays.
//! - `error`: why rows have no arrays.
#![tactic(auto)]

mod cells;
mod check;
pub mod error;
mod lookup;
pub mod pack;
pub mod packed;
mod places;
mod rows;
mod sets;
mod usual;
