//! The graph of states: their shifts and gotos, by source and by target.
mod copies;
mod lists;
pub mod neighbours;
mod origins;

ghost use Rattle.std.specs.Prelude.{◌≡◌, ◌↔◌, ◌∷◌, [], List, reverse, take, IfOk, OnOk, Contains};
ghost use Rattle.std.specs.List.Sorted.{IsStrictlySortedBy};
ghost use Rattle.lalrpop_states.specs.declared.lr1_core.state.StateIndex.{StateIndex};
ghost use Rattle.lalrpop_state_graph.specs.graphs.Neighbours.{targets_left, sources_left};
ghost use Rattle.lalrpop_state_graph.specs.graphs.StateGraph.{Edge, edges, edges_of, IsGraphOf, IsGrown, LeadsTo, targets_of, sources_over, edge, state_cmp, AddsStates, HaveSameStates, IsStepBack};

use self::lists::{list_of, push_at};
use self::neighbours::{Predecessors, Successors};
use lalrpop_base::lr1_core::state::{State, StateIndex};
use lalrpop_base::memory::OutOfMemory;
use lalrpop_base::repr::Symbol;
use std::alloc::Global;

/// The shifts and gotos of a list of states, by the numbers of their sources and of their targets.
/// A target that is not in the list is a state without successors.
#[derive(Drop)]
pub struct StateGraph {
    successors: Vec<Vec<StateIndex>>,
    predecessors: Vec<Vec<(Symbol, StateIndex)>>,
}

impl StateGraph {
    /// The graph of the states. The number of a state is its index in the list. `OutOfMemory` if an
    /// allocation fails.
    #[tactic(auto, using(crate::proofs::theory::graphs::StateGraphs::empty_graph))]
    pub fn new<'grammar, L>(
        alloc: Global,
        states: &[State<'grammar, L>],
    ) -> Result<StateGraph, OutOfMemory>
        ensures graph { IfOk result (IsGraphOf (edges states.now)) }
    {
        let mut graph = StateGraph {
            successors: Vec::new(alloc),
            predecessors: Vec::new(alloc),
        };
        graph.add_states(alloc, states, 0)?;
        Ok(graph)
    }

    // Adds the edges of the states whose number is at least `first`.
    fn add_states<'grammar, L>(
        &mut self,
        alloc: Global,
        states: &[State<'grammar, L>],
        first: usize,
    ) -> Result<(), OutOfMemory>
        ensures { OnOk result (IsGraphOf (edges (take first states.now)) self.old →
            IsGraphOf (edges states.now) self.new) }
    {
        for number in first..states.len() {
            self.add_state(alloc, StateIndex(number), &states[number])?;
        }
        Ok(())
    }

    // Adds the edges of a state, in order.
    fn add_state<L>(
        &mut self,
        alloc: Global,
        source: StateIndex,
        state: &State<'_, L>,
    ) -> Result<(), OutOfMemory>
        ensures { OnOk result (IsGrown (edges_of source state.now) self.old self.new) }
    {
        for (symbol, target) in state.edges() {
            self.add_edge(alloc, source, symbol.to_symbol(alloc)?, target)?;
        }
        Ok(())
    }

    // Adds an edge after the others.
    #[tactic(auto, using(crate::proofs::theory::graphs::StateGraphs::map_cond))]
    fn add_edge(
        &mut self,
        alloc: Global,
        source: StateIndex,
        symbol: Symbol,
        target: StateIndex,
    ) -> Result<(), OutOfMemory>
        ensures { OnOk result (IsGrown (edge source symbol target ∷ []) self.old self.new) }
    {
        push_at(alloc, &mut self.successors, source.0, target)?;
        push_at(alloc, &mut self.predecessors, target.0, (symbol, source))?;
        Ok(())
    }

    /// The targets of the edges of a state: first those of its gotos by descending nonterminal, and
    /// then those of its shifts by descending terminal.
    pub fn successors(&self, state: StateIndex) -> Successors<'_>
        ensures targets { targets_left result ≡ reverse (targets_of self.now state) }
    {
        Successors {
            targets: list_of(&self.successors, state.0),
        }
    }

    /// The states from which an edge over the symbol leads to the state, by descending number.
    pub fn predecessors<'a>(&'a self, state: StateIndex, symbol: &'a Symbol) -> Predecessors<'a>
        ensures sources { sources_left result ≡ reverse (sources_over self.now symbol.now state) }
    {
        Predecessors {
            edges: list_of(&self.predecessors, state.0),
            symbol,
        }
    }

    /// The states from which the list of symbols leads to the state, ascending, each once.
    /// `OutOfMemory` if an allocation fails.
    pub fn trace_back(
        &self,
        alloc: Global,
        state: StateIndex,
        symbols: &[Symbol],
    ) -> Result<Vec<StateIndex>, OutOfMemory>
        ensures ascending { IfOk result (λ found. IsStrictlySortedBy state_cmp found.items) }
        ensures exactly { IfOk result (λ found. (es : List Edge) →
            IsGraphOf es self.now →
            (r : StateIndex) →
            Contains found.items r ↔ LeadsTo es r symbols.now state) }
    {
        let mut found = Vec::new(alloc);
        found.push(state)?;
        let mut left = symbols;
        while let Some((symbol, before)) = left.split_last() {
            found = self.step_back(alloc, &found, symbol)?;
            left = before;
        }
        Ok(found)
    }

    // The states from which the symbol leads to one of the states, ascending, each once.
    fn step_back(
        &self,
        alloc: Global,
        states: &[StateIndex],
        symbol: &Symbol,
    ) -> Result<Vec<StateIndex>, OutOfMemory>
        ensures sources { IfOk result
            (λ sources. IsStepBack self.now symbol.now states.now sources.items) }
        ensures ascending { IfOk result (λ sources. IsStrictlySortedBy state_cmp sources.items) }
    {
        let mut sources = Vec::new(alloc);
        for state in states {
            self.push_sources(*state, symbol, &mut sources)?;
        }
        Ok(in_order(sources))
    }

    // Adds the states from which the symbol leads to the state after the other sources.
    fn push_sources(
        &self,
        state: StateIndex,
        symbol: &Symbol,
        sources: &mut Vec<StateIndex>,
    ) -> Result<(), OutOfMemory>
        ensures { OnOk result (AddsStates (sources_over self.now symbol.now state) sources.old.items
            sources.new.items) }
    {
        for source in self.predecessors(state, symbol) {
            sources.push(source)?;
        }
        Ok(())
    }
}

// The same states, ascending, each once.
fn in_order(mut states: Vec<StateIndex>) -> Vec<StateIndex>
    ensures same { HaveSameStates states.items result.items }
    ensures ascending { IsStrictlySortedBy state_cmp result.items }
{
    states.sort_unstable();
    states.dedup();
    states
}
