//! The edges that a trace adds for an item.
ghost use Rattle.std.specs.Prelude.{◌≡◌, ◌+◌, ◌↔◌, ◌∷◌, [], Contains, IsTrue, true, false, OnOk, IfOk, drop, map};
ghost use Rattle.lalrpop_base.specs.Words.{IsNullable};
ghost use Rattle.lalrpop_traces.specs.traces.Traces.{dotted, dot_edge, own_edge, GoesOn};
ghost use Rattle.lalrpop_traces.specs.traces.TraceOrder.{stop_edge, onward_edges};
ghost use Rattle.lalrpop_traces.specs.traces.TraceGraphs.{plain, plain_edge};
ghost use Rattle.lalrpop_traces.specs.traces.Meetings.{asked, AddsInOrder};

use super::context::{Trace, Traced};
use super::node::TraceGraphNode;
use super::nullable::is_nullable;
use super::trace_graph::TraceGraph;
use lalrpop_base::lr1_core::item::{Item, Lr1Item};
use lalrpop_base::lr1_core::symbol_sets::SymbolSets;
use lalrpop_base::memory::OutOfMemory;
use lalrpop_base::repr::NonterminalString;
use std::alloc::Global;
use std::collections::BTreeMap;

/// The numbers of the edges of items.
#[derive(Drop)]
pub(crate) struct ItemPlaces {
    pub(crate) shifting: Places,
    pub(crate) own: Places,
}

/// The numbers of edges by their items, each by the action of its production and the index of its
/// dot. A number that is not that of an equal edge does no harm.
pub(crate) type Places = BTreeMap<(usize, usize), usize>;

/// Adds the edge to an item from its own nonterminal.
pub(crate) fn add_own<'grammar, L>(
    alloc: Global,
    graph: &mut TraceGraph<'grammar>,
    places: &mut Places,
    item: &Item<'grammar, L>,
) -> Result<(), OutOfMemory>
    ensures in_order { OnOk result
        (AddsInOrder graph.old graph.new (own_edge item.now.production item.now.index ∷ [])) }
{
    let from = name_of(alloc, item)?;
    add_dotted(graph, places, from, node_of(item), item)
}

/// Adds the edges of an item that shifts a nonterminal. The result is whether the trace goes on
/// from it.
pub(crate) fn add_shifting<'grammar>(
    alloc: Global,
    trace: &Trace<'_, '_, 'grammar>,
    graph: &mut TraceGraph<'grammar>,
    places: &mut ItemPlaces,
    name: &NonterminalString,
    item: &Lr1Item<'grammar>,
) -> Result<bool, OutOfMemory>
    ensures on { IfOk result (λ on. IsTrue on ↔ GoesOn (asked trace.now) item.now) }
    ensures onward { IfOk result (λ on. on ≡ true →
        AddsInOrder graph.old graph.new (onward_edges trace.now.traced name.now item.now)) }
    ensures stopped { IfOk result
        (λ on. on ≡ false → AddsInOrder graph.old graph.new (stop_edge name.now item.now ∷ [])) }
{
    let to = TraceGraphNode::Nonterminal(name.clone(alloc)?);
    if !goes_on(trace, item) {
        add_dotted(graph, &mut places.shifting, node_of(item), to, item)?;
        return Ok(false);
    }
    let from = name_of(alloc, item)?;
    add_dotted(graph, &mut places.shifting, from, to, item)?;
    match trace.traced {
        Traced::Shift => Ok(true),
        Traced::Reduce => {
            add_own(alloc, graph, &mut places.own, item)?;
            Ok(true)
        }
    }
}

// Adds an edge with the symbols around the dot of an item.
fn add_dotted<'grammar, L>(
    graph: &mut TraceGraph<'grammar>,
    places: &mut Places,
    from: TraceGraphNode<'grammar>,
    to: TraceGraphNode<'grammar>,
    item: &Item<'grammar, L>,
) -> Result<(), OutOfMemory>
    ensures in_order { OnOk result (AddsInOrder graph.old graph.new
        (dot_edge from.entry to.entry item.now.production item.now.index ∷ [])) }
{
    let labels = item.symbol_sets();
    let place = (item.production.action.index(), item.index);
    let number = graph.edges().len();
    if is_there(graph, places, &place, &from, &to, &labels) {
        return Ok(());
    }
    graph.add_edge(from, to, labels)?;
    places.insert(place, number)?;
    Ok(())
}

// Whether the edge whose number is kept for an item is equal.
fn is_there<'grammar>(
    graph: &TraceGraph<'grammar>,
    places: &Places,
    place: &(usize, usize),
    from: &TraceGraphNode<'grammar>,
    to: &TraceGraphNode<'grammar>,
    labels: &SymbolSets<'grammar>,
) -> bool
    ensures there { IsTrue result → Contains (map plain graph.now.edges)
        (plain_edge from.now to.now labels.now) }
{
    match places.get(place) {
        Some(number) => graph.is_edge_at(*number, from, to, labels),
        None => false,
    }
}

// The node of the nonterminal of an item.
fn name_of<'grammar, L>(
    alloc: Global,
    item: &Item<'grammar, L>,
) -> Result<TraceGraphNode<'grammar>, OutOfMemory>
    ensures { IfOk result
        (λ node. node ≡ TraceGraphNode.Nonterminal item.now.production.nonterminal) }
{
    let production = item.production;
    Ok(TraceGraphNode::Nonterminal(production.nonterminal.clone(alloc)?))
}

// The node of an item.
fn node_of<'grammar, L>(item: &Item<'grammar, L>) -> TraceGraphNode<'grammar>
    ensures { result ≡ TraceGraphNode.Item (dotted item.now.production item.now.index) }
{
    TraceGraphNode::Item(item.to_lr0())
}

// Whether the trace goes on from an item. If a shift is traced, the dot must be at the start. If a
// reduction is traced, the symbols after the nonterminal after the dot must derive the empty list.
fn goes_on<'grammar>(trace: &Trace<'_, '_, 'grammar>, item: &Lr1Item<'grammar>) -> bool
    ensures { IsTrue result ↔ GoesOn (asked trace.now) item.now }
{
    match trace.traced {
        Traced::Shift => item.index == 0,
        Traced::Reduce => is_nullable(trace.context.first_sets, item.symbol_sets().suffix),
    }
}
