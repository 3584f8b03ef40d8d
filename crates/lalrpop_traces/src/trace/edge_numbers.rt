//! Edges of a trace graph that are looked up by their numbers.
ghost use Rattle.std.specs.Prelude.{◌≡◌, ◌↔◌, List, Some, None, IsTrue, IfOk, false, Contains, map, length, slice_get, option_copied};
ghost use Rattle.lalrpop_grammar.specs.declared.repr.TerminalString.{TerminalString};
ghost use Rattle.lalrpop_traces.specs.traces.Examples.{edge_prefix, edge_cursor, edge_suffix, reduced_name};
ghost use Rattle.lalrpop_traces.specs.traces.Paths.{is_item, source, are_one};
ghost use Rattle.lalrpop_traces.specs.traces.TraceGraphs.{AreKnownEdges, IsFrom, IsGraph, IsKnownLabel, edge_numbers_to_source, plain, plain_edge};
ghost use Rattle.lalrpop_traces.specs.declared.trace.node.TraceGraphNode.{TraceGraphNode};
ghost use Rattle.lalrpop_traces.specs.declared.trace.trace_graph.TraceGraphEdge.{TraceGraphEdge};

use super::node::TraceGraphNode;
use super::trace_graph::{NodeIndex, TraceGraph, same_labels};
use lalrpop_base::exact::equal;
use lalrpop_base::lr1_core::symbol_sets::SymbolSets;
use lalrpop_base::memory::OutOfMemory;
use lalrpop_base::repr::NonterminalString;
use std::alloc::Global;

impl<'grammar> TraceGraph<'grammar> {
    /// Whether the edge with the number is an equal one.
    pub(crate) fn is_edge_at(
        &self,
        number: usize,
        from: &TraceGraphNode<'grammar>,
        to: &TraceGraphNode<'grammar>,
        labels: &SymbolSets<'grammar>,
    ) -> bool
        ensures there { IsTrue result →
            Contains (map plain self.now.edges) (plain_edge from.now to.now labels.now) }
        ensures graph { IsGraph self.now }
    {
        let edges = self.edges();
        if number >= edges.len() {
            return false;
        }
        if !equal(&edges[number].to, to) {
            return false;
        }
        self.is_edge(number, from, labels)
    }

    /// Whether the edge with the number comes from the node with the labels.
    pub(crate) fn is_edge(
        &self,
        number: usize,
        from: &TraceGraphNode<'grammar>,
        labels: &SymbolSets<'grammar>,
    ) -> bool
        ensures there { (e : TraceGraphEdge) →
            slice_get self.now.edges number ≡ Some e →
            IsTrue result ↔ IsFrom from.now labels.now e }
        ensures none { slice_get self.now.edges number ≡ None → result ≡ false }
    {
        let edges = self.edges();
        if number >= edges.len() {
            return false;
        }
        let edge = &edges[number];
        same_labels(&edge.symbol_sets, labels) && equal(&edge.from, from)
    }

    /// As `is_edge`, for the node with the number.
    pub(crate) fn is_edge_of(
        &self,
        number: usize,
        from: NodeIndex,
        labels: &SymbolSets<'grammar>,
    ) -> bool
        ensures { (node : TraceGraphNode) (e : TraceGraphEdge) →
            slice_get self.now.nodes from.0 ≡ Some node →
            slice_get self.now.edges number ≡ Some e →
            IsTrue result ↔ IsFrom node labels.now e }
    {
        let Some(source) = self.source_index(number) else {
            return false;
        };
        if source.0 != from.0 {
            return false;
        }
        same_labels(&self.labels(number), labels)
    }

    /// As `numbers_to`, for the node from which an edge comes.
    pub(crate) fn numbers_from(&self, edge: usize) -> &[usize]
        ensures { result.now ≡ edge_numbers_to_source self.now edge }
    {
        let Some(source) = self.source_index(edge) else {
            return &[];
        };
        self.numbers_at(source)
    }

    /// The number at a place in the list `numbers_from` of an edge.
    pub(crate) fn number_from(&self, edge: usize, place: usize) -> Option<usize>
        ensures { result ≡ slice_get (edge_numbers_to_source self.now edge) place }
    {
        let numbers = self.numbers_from(edge);
        if place < numbers.len() {
            return Some(numbers[place]);
        }
        None
    }

    /// How many edges lead to the node from which an edge comes.
    pub(crate) fn count_from(&self, edge: usize) -> usize
        ensures { result ≡ length (edge_numbers_to_source self.now edge) }
    {
        self.numbers_from(edge).len()
    }

    /// Whether an edge comes from an item.
    pub(crate) fn comes_from_item(&self, edge: usize) -> bool
        ensures { result ≡ is_item (source self.now edge) }
    {
        let edges = self.edges();
        if edge >= edges.len() {
            return false;
        }
        match &edges[edge].from {
            TraceGraphNode::Item(_) => true,
            TraceGraphNode::Nonterminal(_) => false,
        }
    }

    /// Whether two edges come from one node.
    pub(crate) fn come_together(&self, a: usize, b: usize) -> bool
        ensures { result ≡ are_one (source self.now a) (source self.now b) }
    {
        let Some(first) = self.source_index(a) else {
            return false;
        };
        let Some(second) = self.source_index(b) else {
            return false;
        };
        first.0 == second.0
    }

    /// The labels of an edge, which are empty if there is no such edge.
    pub(crate) fn labels(&self, edge: usize) -> SymbolSets<'grammar>
        ensures there { (e : TraceGraphEdge) →
            slice_get self.now.edges edge ≡ Some e →
            result ≡ e.symbol_sets }
        ensures known { (terminals : List TerminalString) →
            AreKnownEdges terminals self.now.edges →
            IsKnownLabel terminals result }
        ensures prefix { result.prefix.now ≡ edge_prefix (slice_get self.now.edges edge) }
        ensures cursor { option_copied result.cursor ≡ edge_cursor (slice_get self.now.edges edge) }
        ensures suffix { result.suffix.now ≡ edge_suffix (slice_get self.now.edges edge) }
    {
        let edges = self.edges();
        if edge >= edges.len() {
            return SymbolSets::new();
        }
        edges[edge].symbol_sets
    }

    /// The nonterminal of the node from which an edge comes, if there is such an edge.
    pub(crate) fn reduced_name(
        &self,
        alloc: Global,
        edge: usize,
    ) -> Result<Option<NonterminalString>, OutOfMemory>
        ensures { IfOk result (λ name. name ≡ reduced_name (slice_get self.now.edges edge)) }
    {
        let edges = self.edges();
        if edge >= edges.len() {
            return Ok(None);
        }
        match &edges[edge].from {
            TraceGraphNode::Nonterminal(name) => Ok(Some(name.clone(alloc)?)),
            TraceGraphNode::Item(item) => Ok(Some(item.production.nonterminal.clone(alloc)?)),
        }
    }
}
