//! Collections of lookaheads, and those of `lalrpop_collections`.
pub mod sparse_map;
pub mod tokens;

pub use lalrpop_collections::collections::{
    Collection, Map, Set, multimap, push_twice, queue, sets, walk,
};
