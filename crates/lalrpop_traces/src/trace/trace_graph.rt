//! The graph of a trace.
ghost use Rattle.std.specs.Prelude.{◌≡◌, ◌∷◌, ◌++◌, ◌↔◌, [], ℕ, List, Some, None, IsTrue, IsNone, IfSome, IfOk, OnOk, OnErr, false, Contains, map, slice_get};
ghost use Rattle.lalrpop_base.specs.Words.{AddsOnce, AllDiffer};
ghost use Rattle.lalrpop_grammar.specs.declared.repr.Production.{Production};
ghost use Rattle.lalrpop_traces.specs.traces.Paths.{item_node, source, paths, IsPath};
ghost use Rattle.lalrpop_traces.specs.traces.Examples.{IsExampleOf, CarryRightSides, SpellsDerivation};
ghost use Rattle.lalrpop_traces.specs.traces.TraceGraphs.{AreKnownEdges, IsGraph, KeepPlaces, AddsBoth, AddsNoOther, AddsEdge, SameLabels, plain, plain_edge, node_count, numbers_to};
ghost use Rattle.lalrpop_traces.specs.traces.Walks.{to_come};
ghost use Rattle.lalrpop_traces.specs.declared.trace.example.Example.{Example};
ghost use Rattle.lalrpop_traces.specs.declared.trace.node.TraceGraphNode.{TraceGraphNode};

use super::enumerator::PathEnumerator;
use super::filtered::FilteredPathEnumerator;
use super::node::TraceGraphNode;
use lalrpop_base::first::FirstSets;
use lalrpop_base::lr1_core::item::{Lr0Item, Lr1Item};
use lalrpop_base::lr1_core::symbol_sets::SymbolSets;
use lalrpop_base::memory::OutOfMemory;
use std::alloc::Global;
use std::collections::BTreeMap;
use std::fmt;
use std::marker::Model;

/// The number of a node. Nodes are numbered by their first appearance, from 0.
#[derive(Clone, Copy, Debug, PartialEq, Eq, PartialOrd, Ord)]
pub struct NodeIndex(pub usize);

/// An edge, with symbols around a dot. In a backtrace they are a right side of its source. If the
/// target is a nonterminal there, it is the symbol after the dot.
#[derive(Debug, Drop)]
pub struct TraceGraphEdge<'grammar> {
    pub from: TraceGraphNode<'grammar>,
    pub to: TraceGraphNode<'grammar>,
    pub symbol_sets: SymbolSets<'grammar>,
}

/// Nodes, and edges between them, none twice. Each edge has the number of its source, and each node
/// the numbers of the edges to it.
#[derive(Drop)]
pub struct TraceGraph<'grammar> {
    alloc: Global,
    indices: BTreeMap<TraceGraphNode<'grammar>, usize>,
    edges: Vec<TraceGraphEdge<'grammar>>,
    sources: Vec<usize>,
    incoming: Vec<Vec<usize>>,
}

impl<'grammar> Model for TraceGraph<'grammar> {
    ghost use Rattle.lalrpop_base.specs.Words.{by_number};
    ghost use Rattle.lalrpop_traces.specs.traces.TraceGraphs.{Graph, IsKept};

    ghost Value = { Graph };

    ghost view = { λ g. record { nodes = by_number g.indices.entries; edges = g.edges.items } };

    ghost invariant = { λ g. IsKept g.indices (by_number g.indices.entries) g.edges.items
        g.sources.items g.incoming.items };
}

/// Prints the edges, in the order of their numbers.
impl<'grammar> fmt::Debug for TraceGraph<'grammar> {
    fn fmt<W: fmt::Write>(&self, f: &mut fmt::Formatter<W>) -> fmt::Result {
        write!(f, "{:?}", self.edges)
    }
}

impl<'grammar> TraceGraph<'grammar> {
    /// A graph without nodes.
    pub fn new(alloc: Global) -> Self
        ensures { result ≡ record { nodes = []; edges = [] } }
    {
        TraceGraph {
            alloc,
            indices: BTreeMap::new(alloc),
            edges: Vec::new(alloc),
            sources: Vec::new(alloc),
            incoming: Vec::new(alloc),
        }
    }

    /// Adds a node, if there is no equal one, and returns the number of that node. The error is
    /// `OutOfMemory` if an allocation fails.
    pub fn add_node(&mut self, node: TraceGraphNode<'grammar>) -> Result<NodeIndex, OutOfMemory>
        ensures graph { IsGraph self.new }
        ensures added { OnOk result (AddsOnce self.old.nodes self.new.nodes node.entry) }
        ensures numbered { IfOk result
            (λ index. slice_get self.new.nodes index.0 ≡ Some node.entry) }
        ensures stay { KeepPlaces self.old.nodes self.new.nodes }
        ensures edges { self.new.edges ≡ self.old.edges }
        ensures err { OnErr result (self.new ≡ self.old) }
    {
        if let Some(index) = self.indices.get(&node) {
            return Ok(NodeIndex(*index));
        }
        let index = self.indices.len();
        self.incoming.reserve(1)?;
        self.indices.insert(node, index)?;
        self.incoming.push(Vec::new(self.alloc)).unwrap();
        Ok(NodeIndex(index))
    }

    /// Adds an edge, if there is no equal one, and its nodes. After an allocation failure the edge
    /// is not there, but its nodes may be.
    pub fn add_edge(
        &mut self,
        from: TraceGraphNode<'grammar>,
        to: TraceGraphNode<'grammar>,
        labels: SymbolSets<'grammar>,
    ) -> Result<(), OutOfMemory>
        ensures graph { IsGraph self.new }
        ensures nodes { OnOk result (AddsBoth self.old.nodes self.new.nodes from.entry to.entry) }
        ensures no_other { AddsNoOther self.old.nodes self.new.nodes from.entry to.entry }
        ensures added { OnOk result (AddsEdge self.old.edges self.new.edges
            (record { from = from.entry; to = to.entry; symbol_sets = labels.entry })) }
        ensures stay { KeepPlaces self.old.nodes self.new.nodes }
        ensures err { OnErr result (self.new.edges ≡ self.old.edges) }
    {
        let alloc = self.alloc;
        let source = self.add_node(from.clone(alloc)?)?;
        let target = self.add_node(to.clone(alloc)?)?;
        if self.has_edge(source, target, &labels) {
            return Ok(());
        }
        self.push_edge(
            source,
            target,
            TraceGraphEdge {
                from,
                to,
                symbol_sets: labels,
            },
        )
    }

    // Adds an edge between the nodes with the numbers after the others.
    fn push_edge(
        &mut self,
        source: NodeIndex,
        target: NodeIndex,
        edge: TraceGraphEdge<'grammar>,
    ) -> Result<(), OutOfMemory>
        requires from { slice_get self.old.nodes source.0 ≡ Some edge.from }
        requires to { slice_get self.old.nodes target.0 ≡ Some edge.to }
        requires fresh { ¬ Contains (map plain self.old.edges) (plain edge) }
        ensures graph { IsGraph self.new }
        ensures pushed { OnOk result (self.new ≡ record
            { nodes = self.old.nodes; edges = self.old.edges ++ edge.entry ∷ [] }) }
        ensures err { OnErr result (self.new ≡ self.old) }
    {
        let number = self.edges.len();
        self.edges.reserve(1)?;
        self.sources.reserve(1)?;
        self.incoming[target.0].push(number)?;
        self.sources.push(source.0).unwrap();
        self.edges.push(edge).unwrap();
        Ok(())
    }

    // Whether there is an edge between the nodes with the numbers that has the same symbols.
    fn has_edge(&self, source: NodeIndex, target: NodeIndex, labels: &SymbolSets<'grammar>) -> bool
        ensures { (from to : TraceGraphNode) →
            slice_get self.now.nodes source.0 ≡ Some from →
            slice_get self.now.nodes target.0 ≡ Some to →
            IsTrue result ↔ Contains (map plain self.now.edges) (plain_edge from to labels.now) }
    {
        for number in self.numbers_at(target) {
            if self.is_edge_of(*number, source, labels) {
                return true;
            }
        }
        false
    }

    /// The numbers of the edges to the node with the number, the newest last.
    pub(crate) fn numbers_at(&self, index: NodeIndex) -> &[usize]
        ensures { (node : TraceGraphNode) →
            slice_get self.now.nodes index.0 ≡ Some node →
            result.now ≡ numbers_to self.now node }
    {
        if index.0 >= self.incoming.len() {
            return &[];
        }
        self.incoming[index.0].as_slice()
    }

    /// The number of the node from which an edge comes, if there is such an edge.
    pub(crate) fn source_index(&self, edge: usize) -> Option<NodeIndex>
        ensures some { IfSome result (λ index. (node : TraceGraphNode) ×
            (slice_get self.now.nodes index.0 ≡ Some node) ×
            (source self.now edge ≡ Some node)) }
        ensures none { IsNone result → slice_get self.now.edges edge ≡ None }
        ensures graph { IsGraph self.now }
    {
        if edge >= self.sources.len() {
            return None;
        }
        Some(NodeIndex(self.sources[edge]))
    }

    /// Whether the item is a node.
    pub fn contains(&self, item: &Lr0Item<'grammar>) -> bool
        ensures { IsTrue result ↔ Contains self.now.nodes (TraceGraphNode.Item item.now) }
    {
        self.indices
            .contains_key(&TraceGraphNode::Item(item.to_lr0()))
    }

    /// The edges in the order in which they were added.
    pub fn edges(&self) -> &[TraceGraphEdge<'grammar>]
        ensures edges { result.now ≡ self.now.edges }
        ensures graph { IsGraph self.now }
    {
        self.edges.as_slice()
    }

    /// The examples of the paths back from an item, the newest edges first. The error is
    /// `OutOfMemory` if an allocation fails.
    pub fn lr0_examples<'graph>(
        &'graph self,
        alloc: Global,
        item: Lr0Item<'grammar>,
    ) -> Result<PathEnumerator<'graph, 'grammar>, OutOfMemory>
        ensures graph { IfOk result (λ walk. walk.graph.now ≡ self.now) }
        ensures paths { IfOk result (λ walk. to_come walk ≡ paths self.now (item_node item.entry)) }
        ensures exact { IfOk result (λ walk. (path : List ℕ) →
            Contains (to_come walk) path ↔ IsPath self.now (item_node item.entry) path) }
        ensures once { IfOk result (λ walk. AllDiffer (to_come walk)) }
        ensures derivations { IfOk result (λ walk. (productions : List Production) →
            CarryRightSides productions self.now.edges →
            (path : List ℕ) (example : Example) →
            Contains (to_come walk) path →
            IsExampleOf self.now path example →
            SpellsDerivation productions example) }
        ensures refused { IfOk result (λ walk. walk.refused ≡ false) }
    {
        // A field is read, so that the proof knows the invariant of the graph.
        let _edges = &self.edges;
        PathEnumerator::new(alloc, self, item)
    }

    /// The examples of `lr0_examples` that can go on with a token of the item's lookahead.
    pub fn lr1_examples<'graph>(
        &'graph self,
        alloc: Global,
        first_sets: &'graph FirstSets<'grammar>,
        item: &Lr1Item<'grammar>,
    ) -> Result<FilteredPathEnumerator<'graph, 'grammar>, OutOfMemory>
        requires known { AreKnownEdges first_sets.now.terminals self.now.edges }
        ensures known { IfOk result
            (λ it. AreKnownEdges it.first_sets.now.terminals it.base.graph.now.edges) }
        ensures graph { IfOk result (λ it. it.base.graph.now ≡ self.now) }
        ensures first_sets { IfOk result (λ it. it.first_sets.now ≡ first_sets.now) }
        ensures lookahead { IfOk result (λ it. it.lookahead ≡ item.now.lookahead) }
        ensures paths { IfOk result (λ it. to_come it.base ≡ paths self.now (item_node item.now)) }
        ensures exact { IfOk result (λ it. (path : List ℕ) →
            Contains (to_come it.base) path ↔ IsPath self.now (item_node item.now) path) }
        ensures once { IfOk result (λ it. AllDiffer (to_come it.base)) }
        ensures derivations { IfOk result (λ it. (productions : List Production) →
            CarryRightSides productions self.now.edges →
            (path : List ℕ) (example : Example) →
            Contains (to_come it.base) path →
            IsExampleOf self.now path example →
            SpellsDerivation productions example) }
        ensures refused { IfOk result (λ it. it.base.refused ≡ false) }
    {
        // A field is read, so that the proof knows the invariant of the graph.
        let _edges = &self.edges;
        FilteredPathEnumerator::new(alloc, first_sets, self, item)
    }
}

impl<'grammar> TraceGraph<'grammar> {
    /// The number of nodes.
    pub(crate) fn len(&self) -> usize
        ensures count { result ≡ node_count self.now }
        ensures graph { IsGraph self.now }
    {
        self.indices.len()
    }

    /// The numbers of the edges to a node, the newest last.
    pub(crate) fn numbers_to(&self, node: &TraceGraphNode<'grammar>) -> &[usize]
        ensures { result.now ≡ numbers_to self.now node.now }
    {
        let Some(number) = self.indices.get(node) else {
            return &[];
        };
        self.numbers_at(NodeIndex(*number))
    }

    /// The number at a place in the list `numbers_to` of a node.
    pub(crate) fn number_to(&self, node: &TraceGraphNode<'grammar>, place: usize) -> Option<usize>
        ensures { result ≡ slice_get (numbers_to self.now node.now) place }
    {
        let numbers = self.numbers_to(node);
        if place < numbers.len() {
            return Some(numbers[place]);
        }
        None
    }
}

/// Whether two labels have the same symbols.
pub(crate) fn same_labels<'grammar>(a: &SymbolSets<'grammar>, b: &SymbolSets<'grammar>) -> bool
    ensures { IsTrue result ↔ SameLabels a.now b.now }
{
    if a.suffix != b.suffix {
        return false;
    }
    a == b
}
