//! Whether a path that goes on over an edge can meet a lookahead.
ghost use Rattle.std.specs.Prelude.{◌≡◌, ◌++◌, ℕ, List, false, reverse, slice_get, Contains, IfOk};
ghost use Rattle.lalrpop_base.specs.Words.{IsNullable, Visits};
ghost use Rattle.lalrpop_traces.specs.traces.Examples.{edge_suffix, path_of, suffixes};
ghost use Rattle.lalrpop_traces.specs.traces.Paths.{OpensTo, over};
ghost use Rattle.lalrpop_traces.specs.traces.TraceGraphs.{AreKnownEdges, edge_numbers_to_source};
ghost use Rattle.lalrpop_traces.specs.traces.Walks.{HasNoToken};

use super::ends::visit_before;
use super::enumerator::EnumeratorState;
use super::nullable::is_nullable;
use super::trace_graph::TraceGraph;
use lalrpop_base::collections::walk::Walk;
use lalrpop_base::first::FirstSets;
use lalrpop_base::lookahead::token_set::TokenSet;
use lalrpop_base::memory::OutOfMemory;
use std::alloc::Global;

/// Whether FIRST of a suffix has a token of the lookahead, on a way back over the edge. The way
/// goes on from an edge if its suffix is nullable. It does not pass the nodes that the path has
/// passed. If there is no such suffix, the symbols after the path begin with no such token.
pub(crate) fn can_meet<'grammar>(
    alloc: Global,
    first_sets: &FirstSets<'grammar>,
    lookahead: &TokenSet,
    graph: &TraceGraph<'grammar>,
    path: &[EnumeratorState],
    edge: usize,
) -> Result<bool, OutOfMemory>
    requires known { AreKnownEdges first_sets.now.terminals graph.now.edges }
    ensures none { IfOk result (λ can. can ≡ false → (n : ℕ) (rest : List ℕ) →
        Contains (over graph.now n (path_of (reverse path.now)) edge) (path_of path.now ++ rest) →
        HasNoToken first_sets.now lookahead.now (suffixes graph.now rest)) }
{
    if meets(alloc, first_sets, lookahead, graph, edge)? {
        return Ok(true);
    }
    let mut walk = Walk::new(alloc);
    walk.visit(edge, edge)?;
    while let Some(next) = walk.waiting.pop_front() {
        if search_on(alloc, first_sets, lookahead, graph, path, next, &mut walk)? {
            return Ok(true);
        }
    }
    Ok(false)
}

// Goes on from an edge whose suffix is nullable. The result is whether a suffix of the edges to its
// source meets the lookahead.
fn search_on<'grammar>(
    alloc: Global,
    first_sets: &FirstSets<'grammar>,
    lookahead: &TokenSet,
    graph: &TraceGraph<'grammar>,
    path: &[EnumeratorState],
    edge: usize,
    walk: &mut Walk<usize>,
) -> Result<bool, OutOfMemory>
    requires known { AreKnownEdges first_sets.now.terminals graph.now.edges }
    ensures visits { IfOk result (λ met. met ≡ false → Visits (OpensTo graph.now
        first_sets.now.productions (path_of (reverse path.now)) edge) walk.old walk.new) }
    ensures none { IfOk result (λ met. met ≡ false →
        IsNullable first_sets.now.productions (edge_suffix (slice_get graph.now.edges edge)) →
        (k : ℕ) →
        Contains (edge_numbers_to_source graph.now edge) k →
        HasNoToken first_sets.now lookahead.now (edge_suffix (slice_get graph.now.edges k))) }
{
    if !is_nullable(first_sets, graph.labels(edge).suffix) {
        return Ok(false);
    }
    if meets_before(alloc, first_sets, lookahead, graph, edge)? {
        return Ok(true);
    }
    visit_before(graph, path, edge, walk)?;
    Ok(false)
}

// Whether the suffix of one of the edges to the source of an edge meets the lookahead.
fn meets_before<'grammar>(
    alloc: Global,
    first_sets: &FirstSets<'grammar>,
    lookahead: &TokenSet,
    graph: &TraceGraph<'grammar>,
    edge: usize,
) -> Result<bool, OutOfMemory>
    requires known { AreKnownEdges first_sets.now.terminals graph.now.edges }
    ensures none { IfOk result (λ met. met ≡ false →
        (k : ℕ) →
        Contains (edge_numbers_to_source graph.now edge) k →
        HasNoToken first_sets.now lookahead.now (edge_suffix (slice_get graph.now.edges k))) }
{
    for number in graph.numbers_from(edge) {
        if meets(alloc, first_sets, lookahead, graph, *number)? {
            return Ok(true);
        }
    }
    Ok(false)
}

// Whether FIRST of the suffix of an edge has a token of the lookahead.
fn meets<'grammar>(
    alloc: Global,
    first_sets: &FirstSets<'grammar>,
    lookahead: &TokenSet,
    graph: &TraceGraph<'grammar>,
    edge: usize,
) -> Result<bool, OutOfMemory>
    requires known { AreKnownEdges first_sets.now.terminals graph.now.edges }
    ensures none { IfOk result (λ met. met ≡ false →
        HasNoToken first_sets.now lookahead.now (edge_suffix (slice_get graph.now.edges edge))) }
{
    let labels = graph.labels(edge);
    let first = first_sets.first0(alloc, labels.suffix)?;
    Ok(first.is_intersecting(lookahead))
}
