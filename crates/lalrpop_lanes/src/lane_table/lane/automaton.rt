//! The data that a trace reads.

use lalrpop_base::first::FirstSets;
use lalrpop_base::lr1_core::state::State;
use lalrpop_base::repr::NonterminalString;
use lalrpop_base::repr::grammar::Grammar;
use lalrpop_state_graph::state_graph::StateGraph;

/// States of a grammar with their graph, and the FIRST sets of the grammar.
#[derive(Drop)]
pub(crate) struct Automaton<'trace, 'grammar, L> {
    pub(crate) grammar: &'grammar Grammar,
    pub(crate) start: &'trace NonterminalString,
    pub(crate) states: &'trace [State<'grammar, L>],
    pub(crate) first_sets: &'trace FirstSets<'grammar>,
    pub(crate) state_graph: &'trace StateGraph,
}
