//! Memory that a construction reuses from state to state.

use super::transitions::Moves;
use lalrpop_base::collections::queue::Queue;
use lalrpop_base::collections::sparse_map::SparseMap;
use lalrpop_base::lookahead::Lookahead;
use std::alloc::Global;

/// Memory that a construction reuses from state to state.
///
/// - `shared`: the tokens of each nonterminal of a closure.
/// - `queue`: the nonterminals whose tokens are not passed on yet.
/// - `items`: the tokens of each item of the closure.
/// - `moves`: the items with the dot moved, by the symbol over which it moved.
/// - `numbers`, `edges`: the items and transitions of the state that was made last, by number.
#[derive(Drop)]
pub struct Workspace<L: Lookahead> {
    pub shared: SparseMap<L>,
    pub queue: Queue,
    pub items: SparseMap<L>,
    pub moves: Moves<L>,
    pub numbers: Vec<usize>,
    pub edges: Vec<(usize, usize)>,
}

impl<L: Lookahead> Workspace<L> {
    /// An empty workspace.
    pub fn new(alloc: Global) -> Self {
        Workspace {
            shared: SparseMap::new(alloc),
            queue: Queue::new(alloc),
            items: SparseMap::new(alloc),
            moves: SparseMap::new(alloc),
            numbers: Vec::new(alloc),
            edges: Vec::new(alloc),
        }
    }
}
