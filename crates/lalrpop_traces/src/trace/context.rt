//! The states and sets that a trace reads.
ghost use Rattle.lalrpop_state_graph.specs.Words.{edges, IsGraphOf};

use lalrpop_base::first::FirstSets;
use lalrpop_base::lr1_core::item::Lr0Item;
use lalrpop_base::lr1_core::state::{Lr1State, StateIndex};
use lalrpop_state_graph::state_graph::StateGraph;

/// What is traced: a shift, or a reduction.
#[derive(Clone, Copy, PartialEq, Eq)]
pub(crate) enum Traced {
    Shift,
    Reduce,
}

/// States with their graph, and the FIRST sets of the grammar.
#[derive(Drop)]
pub(crate) struct Context<'trace, 'grammar> {
    pub(crate) states: &'trace [Lr1State<'grammar>],
    pub(crate) first_sets: &'trace FirstSets<'grammar>,
    pub(crate) state_graph: StateGraph,
    ghost graph: { IsGraphOf (edges states.now) state_graph },
}

/// An item in a state, traced back over the states.
#[derive(Drop)]
pub(crate) struct Trace<'context, 'trace, 'grammar> {
    pub(crate) traced: Traced,
    pub(crate) state: StateIndex,
    pub(crate) item: Lr0Item<'grammar>,
    pub(crate) context: &'context Context<'trace, 'grammar>,
}
