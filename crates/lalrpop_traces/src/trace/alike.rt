//! Graphs of reductions that are made from those of like reductions.
ghost use Rattle.std.specs.Prelude.{[], ◌∷◌, List, IfOk, OnOk, drop, map};
ghost use Rattle.lalrpop_base.specs.Words.{Bits, Dotted};
ghost use Rattle.lalrpop_grammar.specs.declared.repr.Production.{Production};
ghost use Rattle.lalrpop_states.specs.declared.lookahead.nil.Nil.{Nil};
ghost use Rattle.lalrpop_states.specs.declared.lr1_core.state.State.{State};
ghost use Rattle.lalrpop_states.specs.declared.lr1_core.state.StateIndex.{StateIndex};
ghost use Rattle.lalrpop_traces.specs.traces.Alike.{AreAlike};
ghost use Rattle.lalrpop_traces.specs.traces.Meetings.{AddsInOrder};
ghost use Rattle.lalrpop_traces.specs.traces.TraceGraphs.{plain, plain_edges};
ghost use Rattle.lalrpop_traces.specs.traces.TraceOrder.{IsInOrder};
ghost use Rattle.lalrpop_traces.specs.traces.Traces.{IsTraceOf, own_edge, reduction_traced};

use super::edges_of_items::add_own;
use super::trace_graph::{TraceGraph, TraceGraphEdge};
use lalrpop_base::lr1_core::item::Lr0Item;
use lalrpop_base::memory::OutOfMemory;
use std::alloc::Global;
use std::collections::BTreeMap;

impl<'grammar> TraceGraph<'grammar> {
    /// The graph of the reduction of an item, made from this one. That is the graph of a like
    /// reduction, so that only the first edges differ.
    pub fn for_item(
        &self,
        alloc: Global,
        item: &Lr0Item<'grammar>,
    ) -> Result<TraceGraph<'grammar>, OutOfMemory>
        ensures ordered { IfOk result (λ graph. (productions : List Production)
            (states : List (State Bits)) (state other : StateIndex) (like : Dotted Nil) →
            AreAlike states state item.now other like →
            IsInOrder (reduction_traced productions states other like) self.now →
            IsInOrder (reduction_traced productions states state item.now) graph) }
        ensures traced { IfOk result (λ graph. (productions : List Production)
            (states : List (State Bits)) (state other : StateIndex) (like : Dotted Nil) →
            AreAlike states state item.now other like →
            IsInOrder (reduction_traced productions states other like) self.now →
            IsTraceOf (reduction_traced productions states state item.now) graph) }
    {
        let graph = copy_with_first(alloc, self, item)?;
        Ok(graph)
    }
}

// A graph with the edge to an item from its own nonterminal, and then the edges of another graph
// but for the first one.
fn copy_with_first<'grammar>(
    alloc: Global,
    graph: &TraceGraph<'grammar>,
    item: &Lr0Item<'grammar>,
) -> Result<TraceGraph<'grammar>, OutOfMemory>
    ensures { IfOk result (λ copy. AddsInOrder (record { nodes = []; edges = [] }) copy
        (own_edge item.now.production item.now.index ∷ drop 1 (plain_edges graph.now))) }
{
    let mut copy = TraceGraph::new(alloc);
    let mut places = BTreeMap::new(alloc);
    add_own(alloc, &mut copy, &mut places, item)?;
    add_others(alloc, graph, &mut copy)?;
    Ok(copy)
}

// Adds the edges of another graph but for the first one.
fn add_others<'grammar>(
    alloc: Global,
    graph: &TraceGraph<'grammar>,
    copy: &mut TraceGraph<'grammar>,
) -> Result<(), OutOfMemory>
    ensures { OnOk result (AddsInOrder copy.old copy.new (drop 1 (plain_edges graph.now))) }
{
    let Some((_first, others)) = graph.edges().split_first() else {
        return Ok(());
    };
    add_copies(alloc, others, copy)
}

// Adds copies of edges.
fn add_copies<'grammar>(
    alloc: Global,
    edges: &[TraceGraphEdge<'grammar>],
    copy: &mut TraceGraph<'grammar>,
) -> Result<(), OutOfMemory>
    ensures { OnOk result (AddsInOrder copy.old copy.new (map plain edges.now)) }
{
    for edge in edges {
        add_copy(alloc, edge, copy)?;
    }
    Ok(())
}

// Adds a copy of an edge.
fn add_copy<'grammar>(
    alloc: Global,
    edge: &TraceGraphEdge<'grammar>,
    copy: &mut TraceGraph<'grammar>,
) -> Result<(), OutOfMemory>
    ensures { OnOk result (AddsInOrder copy.old copy.new (plain edge.now ∷ [])) }
{
    let from = edge.from.clone(alloc)?;
    let to = edge.to.clone(alloc)?;
    copy.add_edge(from, to, edge.symbol_sets)?;
    Ok(())
}
