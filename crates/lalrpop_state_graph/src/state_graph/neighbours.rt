//! Iterators over the neighbours of a state in a graph. The edge that was added last comes first.
ghost use Rattle.std.specs.Iterator.{YieldsFirst, item_count};
ghost use Rattle.lalrpop_state_graph.specs.graphs.Neighbours.{targets_left, sources_left};

use lalrpop_base::exact::equal;
use lalrpop_base::lr1_core::state::StateIndex;
use lalrpop_base::repr::Symbol;

/// An iterator over the targets of the edges of a state.
#[derive(Drop)]
pub struct Successors<'graph> {
    pub(crate) targets: &'graph [StateIndex],
}

impl<'graph> Iterator for Successors<'graph> {
    type Item = StateIndex;

    ghost next_gives = { YieldsFirst targets_left };

    ghost remaining = { item_count targets_left };

    fn next(&mut self) -> Option<StateIndex> {
        let (last, others) = self.targets.split_last()?;
        self.targets = others;
        Some(*last)
    }
}

/// An iterator over the sources of the edges over a symbol to a state.
#[derive(Drop)]
pub struct Predecessors<'graph> {
    pub(crate) edges: &'graph [(Symbol, StateIndex)],
    pub(crate) symbol: &'graph Symbol,
}

impl<'graph> Iterator for Predecessors<'graph> {
    type Item = StateIndex;

    ghost next_gives = { YieldsFirst sources_left };

    ghost remaining = { item_count sources_left };

    fn next(&mut self) -> Option<StateIndex> {
        while let Some((last, others)) = self.edges.split_last() {
            self.edges = others;
            if equal(&last.0, self.symbol) {
                return Some(last.1);
            }
        }
        None
    }
}
