//! Whether a path that goes on over an edge can come to an end.
ghost use Rattle.std.specs.Prelude.{◌≡◌, ℕ, [], false, reverse, Contains, IfOk, OnOk};
ghost use Rattle.lalrpop_base.specs.Words.{Visits};
ghost use Rattle.lalrpop_traces.specs.traces.Examples.{path_of};
ghost use Rattle.lalrpop_traces.specs.traces.Paths.{comes_again, is_item, over, source, GoesOnTo};
ghost use Rattle.lalrpop_traces.specs.traces.TraceGraphs.{edge_numbers_to_source};

use super::enumerator::EnumeratorState;
use super::trace_graph::TraceGraph;
use lalrpop_base::collections::walk::Walk;
use lalrpop_base::memory::OutOfMemory;
use std::alloc::Global;

/// Whether an item can be reached backwards over an edge that comes from a nonterminal, without the
/// nodes that the path has passed. If not, no path goes on over the edge.
pub(crate) fn can_end<'grammar>(
    alloc: Global,
    graph: &TraceGraph<'grammar>,
    path: &[EnumeratorState],
    edge: usize,
) -> Result<bool, OutOfMemory>
    requires nonterminal { is_item (source graph.now edge) ≡ false }
    ensures none { IfOk result (λ can. can ≡ false → (n : ℕ) →
        over graph.now n (path_of (reverse path.now)) edge ≡ []) }
{
    if ends_before(graph, edge) {
        return Ok(true);
    }
    let mut walk = Walk::new(alloc);
    walk.visit(edge, edge)?;
    while let Some(next) = walk.waiting.pop_front() {
        if ends_before(graph, next) {
            return Ok(true);
        }
        visit_before(graph, path, next, &mut walk)?;
    }
    Ok(false)
}

// Whether one of the edges to the source of an edge comes from an item.
fn ends_before(graph: &TraceGraph<'_>, edge: usize) -> bool
    ensures none { result ≡ false → (k : ℕ) →
        Contains (edge_numbers_to_source graph.now edge) k → is_item (source graph.now k) ≡ false }
{
    for number in graph.numbers_from(edge) {
        if graph.comes_from_item(*number) {
            return true;
        }
    }
    false
}

/// Goes to the edges to the source of an edge whose own sources the path has not passed.
pub(crate) fn visit_before(
    graph: &TraceGraph<'_>,
    path: &[EnumeratorState],
    edge: usize,
    walk: &mut Walk<usize>,
) -> Result<(), OutOfMemory>
    ensures { OnOk result
        (Visits (GoesOnTo graph.now (path_of (reverse path.now)) edge) walk.old walk.new) }
{
    for number in graph.numbers_from(edge) {
        visit_new(graph, path, *number, walk)?;
    }
    Ok(())
}

// Goes to an edge if the path has not passed its source.
fn visit_new(
    graph: &TraceGraph<'_>,
    path: &[EnumeratorState],
    edge: usize,
    walk: &mut Walk<usize>,
) -> Result<(), OutOfMemory>
    ensures { OnOk result (Visits
        (λ k. (edge ≡ k) × (comes_again graph.now k (path_of (reverse path.now)) ≡ false))
        walk.old walk.new) }
{
    if has_passed(graph, path, edge) {
        return Ok(());
    }
    walk.visit(edge, edge)
}

/// Whether the path has passed the source of an edge.
pub(crate) fn has_passed(graph: &TraceGraph<'_>, path: &[EnumeratorState], edge: usize) -> bool
    ensures { result ≡ comes_again graph.now edge (path_of (reverse path.now)) }
{
    for state in path {
        if graph.come_together(state.number, edge) {
            return true;
        }
    }
    false
}
