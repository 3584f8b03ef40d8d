//! Backtraces: graphs of how a state came to have an item, and examples of input that lead there.
mod alike;
mod can_meet;
mod context;
mod edge_numbers;
mod edges_of_items;
mod ends;
pub mod enumerator;
pub mod example;
pub mod filtered;
pub mod node;
mod nullable;
mod spelling;
mod terminals_known;
pub mod trace_graph;
mod walk_back;

ghost use Rattle.std.specs.Prelude.{◌≡◌, IfOk};
ghost use Rattle.lalrpop_traces.specs.traces.Alike.{BeganIn};
ghost use Rattle.lalrpop_traces.specs.traces.Meetings.{asked};
ghost use Rattle.lalrpop_traces.specs.traces.Examples.{CarryRightSides};
ghost use Rattle.lalrpop_traces.specs.traces.TraceGraphs.{AreKnownEdges};
ghost use Rattle.lalrpop_traces.specs.traces.TraceOrder.{IsInOrder};
ghost use Rattle.lalrpop_traces.specs.traces.Traces.{HasOwnProductions, HasOwnTerminals, IsTraceOf, shift_traced, reduction_traced};

use context::{Context, Trace, Traced};
use edges_of_items::ItemPlaces;
pub use enumerator::PathEnumerator;
pub use example::{Example, ExampleSymbol, Reduction};
pub use filtered::FilteredPathEnumerator;
use lalrpop_base::first::FirstSets;
use lalrpop_base::lr1_core::item::Lr0Item;
use lalrpop_base::lr1_core::state::{Lr1State, StateIndex};
use lalrpop_base::memory::OutOfMemory;
use lalrpop_state_graph::state_graph::StateGraph;
pub use node::TraceGraphNode;
use std::alloc::Global;
use std::collections::{BTreeMap, BTreeSet};
pub use trace_graph::{NodeIndex, TraceGraph, TraceGraphEdge};
use walk_back::{Met, trace_item};

/// Makes backtraces over states.
#[derive(Drop)]
pub struct Tracer<'trace, 'grammar> {
    context: Context<'trace, 'grammar>,
}

impl<'trace, 'grammar> Tracer<'trace, 'grammar> {
    /// A tracer over states. Their targets may be outside the list. The error is `OutOfMemory` if
    /// an allocation fails.
    pub fn new(
        alloc: Global,
        first_sets: &'trace FirstSets<'grammar>,
        states: &'trace [Lr1State<'grammar>],
    ) -> Result<Self, OutOfMemory>
        ensures states { IfOk result (λ tracer. tracer.context.states.now ≡ states.now) }
        ensures rules { IfOk result (λ tracer. tracer.context.first_sets.now ≡ first_sets.now) }
    {
        Ok(Tracer {
            context: Context {
                states,
                first_sets,
                state_graph: StateGraph::new(alloc, states)?,
            },
        })
    }

    /// The states in which an item of a state began, ascending, each once. The error is
    /// `OutOfMemory` if an allocation fails.
    pub fn sources(
        &self,
        alloc: Global,
        state: StateIndex,
        item: &Lr0Item<'grammar>,
    ) -> Result<Vec<StateIndex>, OutOfMemory>
        ensures exactly { IfOk result (λ found. BeganIn self.now.context.states.now state item.now
            found.items) }
    {
        let found = self
            .context
            .state_graph
            .trace_back(alloc, state, item.prefix())?;
        Ok(found)
    }

    /// The graph of how a state came to have an item that shifts. The trace goes back to items
    /// whose dot is past the start. The error is `OutOfMemory` if an allocation fails.
    pub fn backtrace_shift(
        &self,
        alloc: Global,
        state: StateIndex,
        item: Lr0Item<'grammar>,
    ) -> Result<TraceGraph<'grammar>, OutOfMemory>
        ensures traced { IfOk result (IsTraceOf (shift_traced
            self.now.context.first_sets.now.productions self.now.context.states.now state
            item.entry)) }
        ensures ordered { IfOk result (IsInOrder (shift_traced
            self.now.context.first_sets.now.productions self.now.context.states.now state
            item.entry)) }
        ensures right_sides { IfOk result (λ graph. HasOwnProductions (shift_traced
            self.now.context.first_sets.now.productions self.now.context.states.now state
            item.entry) →
            CarryRightSides self.now.context.first_sets.now.productions graph.edges) }
        ensures known { IfOk result (λ graph. HasOwnTerminals self.now.context.first_sets.now →
            HasOwnProductions (shift_traced self.now.context.first_sets.now.productions
            self.now.context.states.now state item.entry) →
            AreKnownEdges self.now.context.first_sets.now.terminals graph.edges) }
    {
        let trace = Trace {
            traced: Traced::Shift,
            state,
            item,
            context: &self.context,
        };
        graph_of(alloc, &trace)
    }

    /// The graph of how a state came to have an item that is or will be reduced. The trace goes
    /// back to items with a nonterminal after the dot, if the symbols after that do not derive the
    /// empty list. The error is `OutOfMemory` if an allocation fails.
    pub fn backtrace_reduce(
        &self,
        alloc: Global,
        state: StateIndex,
        item: Lr0Item<'grammar>,
    ) -> Result<TraceGraph<'grammar>, OutOfMemory>
        ensures traced { IfOk result (IsTraceOf (reduction_traced
            self.now.context.first_sets.now.productions self.now.context.states.now state
            item.entry)) }
        ensures ordered { IfOk result (IsInOrder (reduction_traced
            self.now.context.first_sets.now.productions self.now.context.states.now state
            item.entry)) }
        ensures right_sides { IfOk result (λ graph. HasOwnProductions (reduction_traced
            self.now.context.first_sets.now.productions self.now.context.states.now state
            item.entry) →
            CarryRightSides self.now.context.first_sets.now.productions graph.edges) }
        ensures known { IfOk result (λ graph. HasOwnTerminals self.now.context.first_sets.now →
            HasOwnProductions (reduction_traced self.now.context.first_sets.now.productions
            self.now.context.states.now state item.entry) →
            AreKnownEdges self.now.context.first_sets.now.terminals graph.edges) }
    {
        let trace = Trace {
            traced: Traced::Reduce,
            state,
            item,
            context: &self.context,
        };
        graph_of(alloc, &trace)
    }
}

// The graph of a trace.
fn graph_of<'grammar>(
    alloc: Global,
    trace: &Trace<'_, '_, 'grammar>,
) -> Result<TraceGraph<'grammar>, OutOfMemory>
    ensures traced { IfOk result (IsTraceOf (asked trace.now)) }
    ensures ordered { IfOk result (IsInOrder (asked trace.now)) }
    ensures right_sides { IfOk result (λ graph. HasOwnProductions (asked trace.now) →
        CarryRightSides trace.now.context.now.first_sets.now.productions graph.edges) }
    ensures known { IfOk result (λ graph. HasOwnTerminals trace.now.context.now.first_sets.now →
        HasOwnProductions (asked trace.now) →
        AreKnownEdges trace.now.context.now.first_sets.now.terminals graph.edges) }
{
    let mut met = Met {
        trace_graph: TraceGraph::new(alloc),
        places: ItemPlaces {
            shifting: BTreeMap::new(alloc),
            own: BTreeMap::new(alloc),
        },
        visited_set: BTreeSet::new(alloc),
    };
    trace_item(alloc, trace, &mut met)?;
    let Met { trace_graph, .. } = met;
    Ok(trace_graph)
}
