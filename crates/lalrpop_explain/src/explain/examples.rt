//! The first examples of an item.
ghost use Rattle.std.specs.Prelude.{◌≡◌, false, [], take, Contains, IfOk};
ghost use Rattle.lalrpop_explain.specs.explained.FirstExamples.{AreExamplesOf, AreFirstMeeting, AreReduceExamples, AreShiftExamples};
ghost use Rattle.lalrpop_explain.specs.explained.KeptGraphs.{AreKept, IsKeptGraph, IsReductionGraph};
ghost use Rattle.lalrpop_explain.specs.explained.OwnErrors.{AreOwnStates};
ghost use Rattle.lalrpop_states.specs.declared.lr1_core.state.StateIndex.{StateIndex as Numbered};
ghost use Rattle.lalrpop_traces.specs.Words.{AreKnownEdges, BeganIn, dotted, item_node, paths, to_come};

use super::context::Context;
use super::kept::{KeptGraph, KeptGraphs};
use lalrpop_base::lr1_core::item::{Item, Lr1Item};
use lalrpop_base::lr1_core::state::StateIndex;
use lalrpop_base::memory::OutOfMemory;
use lalrpop_traces::trace::{Example, FilteredPathEnumerator, PathEnumerator, TraceGraph};
use std::alloc::Global;

/// The first examples of an item of a state that shifts, at most `most`.
pub(crate) fn shift_examples<'grammar>(
    alloc: Global,
    context: &Context<'_, 'grammar>,
    state: StateIndex,
    item: &Lr1Item<'grammar>,
    most: usize,
) -> Result<Vec<Example>, OutOfMemory>
    ensures { IfOk result (λ examples. AreShiftExamples context.now.first_sets.now
        context.now.states.now most state item.now examples.items) }
{
    let lr0_item = Item::lr0(item.production, item.index);
    let graph = context.tracer.backtrace_shift(alloc, state, lr0_item)?;
    let walk = graph.lr0_examples(alloc, Item::lr0(item.production, item.index))?;
    let examples = first_examples(alloc, walk, most)?;
    Ok(examples)
}

/// The first examples of a finished item in a state that can go on with a token of the lookahead of
/// the item, at most `most`.
pub(crate) fn reduce_examples<'grammar>(
    alloc: Global,
    context: &Context<'_, 'grammar>,
    kept: &mut KeptGraphs<'grammar>,
    state: StateIndex,
    item: &Lr1Item<'grammar>,
    most: usize,
) -> Result<Vec<Example>, OutOfMemory>
    requires states { AreOwnStates context.now.first_sets.now context.now.states.now }
    requires item { Contains context.now.first_sets.now.productions item.now.production }
    requires kept { AreKept context.now.first_sets.now context.now.states.now kept.old }
    ensures examples { IfOk result (λ examples. AreReduceExamples context.now.first_sets.now
        context.now.states.now most state item.now examples.items) }
    ensures kept { AreKept context.now.first_sets.now context.now.states.now kept.new }
{
    if let Some(one) = kept.find(state, item) {
        return meeting_examples(alloc, context, one, item, most);
    }
    let one = graph_to_keep(alloc, context, kept, state, item)?;
    let examples = meeting_examples(alloc, context, &one, item, most)?;
    kept.keep(one)?;
    Ok(examples)
}

// The graph of how a state came to have a finished item, with the states in which the item began.
fn graph_to_keep<'grammar>(
    alloc: Global,
    context: &Context<'_, 'grammar>,
    kept: &KeptGraphs<'grammar>,
    state: StateIndex,
    item: &Lr1Item<'grammar>,
) -> Result<KeptGraph<'grammar>, OutOfMemory>
    requires states { AreOwnStates context.now.first_sets.now context.now.states.now }
    requires item { Contains context.now.first_sets.now.productions item.now.production }
    requires kept { AreKept context.now.first_sets.now context.now.states.now kept.now }
    ensures one { IfOk result
        (λ one. IsKeptGraph context.now.first_sets.now context.now.states.now one) }
    ensures graph { IfOk result (λ one. IsReductionGraph context.now.first_sets.now
        context.now.states.now state (dotted item.now.production item.now.index) one.graph) }
    ensures paths { IfOk result
        (λ one. one.has_path ≡ false → paths one.graph (item_node item.now) ≡ []) }
{
    let finished = Item::lr0(item.production, item.index);
    let sources = context.tracer.sources(alloc, state, &finished)?;
    let graph = graph_from(alloc, context, kept, state, item, &sources)?;
    let has_path = has_path(alloc, &graph, item)?;
    Ok(KeptGraph {
        state,
        production: item.production,
        index: item.index,
        sources,
        graph,
        has_path,
    })
}

// Whether a path of the graph of an item leads back to an item.
fn has_path<'grammar>(
    alloc: Global,
    graph: &TraceGraph<'grammar>,
    item: &Lr1Item<'grammar>,
) -> Result<bool, OutOfMemory>
    ensures { IfOk result (λ has. has ≡ false → paths graph.now (item_node item.now) ≡ []) }
{
    let finished = Item::lr0(item.production, item.index);
    let walk = graph.lr0_examples(alloc, finished)?;
    Ok(walk.found_trace())
}

// The graph of how a state came to have a finished item that began in the states. It is made from a
// like one, if such a graph is kept.
fn graph_from<'grammar>(
    alloc: Global,
    context: &Context<'_, 'grammar>,
    kept: &KeptGraphs<'grammar>,
    state: StateIndex,
    item: &Lr1Item<'grammar>,
    sources: &[StateIndex],
) -> Result<TraceGraph<'grammar>, OutOfMemory>
    requires states { AreOwnStates context.now.first_sets.now context.now.states.now }
    requires item { Contains context.now.first_sets.now.productions item.now.production }
    requires kept { AreKept context.now.first_sets.now context.now.states.now kept.now }
    requires sources { BeganIn context.now.states.now state
        (dotted item.now.production item.now.index) sources.now }
    ensures { IfOk result (IsReductionGraph context.now.first_sets.now context.now.states.now state
        (dotted item.now.production item.now.index)) }
{
    match kept.find_like(item, sources) {
        Some(like) => {
            let finished = Item::lr0(item.production, item.index);
            let graph = like.graph.for_item(alloc, &finished)?;
            Ok(graph)
        }
        None => reduction_graph(alloc, context, state, item),
    }
}

// The graph of how a state came to have a finished item.
fn reduction_graph<'grammar>(
    alloc: Global,
    context: &Context<'_, 'grammar>,
    state: StateIndex,
    item: &Lr1Item<'grammar>,
) -> Result<TraceGraph<'grammar>, OutOfMemory>
    requires states { AreOwnStates context.now.first_sets.now context.now.states.now }
    requires item { Contains context.now.first_sets.now.productions item.now.production }
    ensures { IfOk result (IsReductionGraph context.now.first_sets.now context.now.states.now state
        (dotted item.now.production item.now.index)) }
{
    let finished = Item::lr0(item.production, item.index);
    let graph = context.tracer.backtrace_reduce(alloc, state, finished)?;
    Ok(graph)
}

// The first examples of a finished item that can go on with a token of the lookahead of the item,
// at most `most`, by its graph. There are none if no path leads back to an item.
fn meeting_examples<'grammar>(
    alloc: Global,
    context: &Context<'_, 'grammar>,
    one: &KeptGraph<'grammar>,
    item: &Lr1Item<'grammar>,
    most: usize,
) -> Result<Vec<Example>, OutOfMemory>
    requires known { AreKnownEdges context.now.first_sets.now.terminals one.now.graph.edges }
    requires paths { one.now.has_path ≡ false → paths one.now.graph (item_node item.now) ≡ [] }
    ensures { IfOk result (λ examples. (state : Numbered) →
        IsReductionGraph context.now.first_sets.now context.now.states.now state
        (dotted item.now.production item.now.index) one.now.graph →
        AreReduceExamples context.now.first_sets.now
        context.now.states.now most state item.now examples.items) }
{
    if !one.has_path {
        return Ok(Vec::new(alloc));
    }
    let walk = one.graph.lr1_examples(alloc, context.first_sets, item)?;
    let examples = first_meeting(alloc, walk, most)?;
    Ok(examples)
}

// The first examples of a walk, at most `most`.
fn first_examples(
    alloc: Global,
    mut walk: PathEnumerator<'_, '_>,
    most: usize,
) -> Result<Vec<Example>, OutOfMemory>
    requires { walk.refused ≡ false }
    ensures { IfOk result (λ examples. AreExamplesOf walk.entry.graph.now
        (take most (to_come walk.entry)) examples.items) }
{
    let mut examples = Vec::new(alloc);
    let mut left = most;
    while left > 0 {
        match walk.next() {
            Some(example) => examples.push(example?)?,
            None => return Ok(examples),
        }
        left -= 1;
    }
    Ok(examples)
}

// The first examples of a filtered walk, at most `most`.
fn first_meeting(
    alloc: Global,
    mut walk: FilteredPathEnumerator<'_, '_>,
    most: usize,
) -> Result<Vec<Example>, OutOfMemory>
    requires known { AreKnownEdges walk.first_sets.now.terminals walk.base.graph.now.edges }
    requires refused { walk.base.refused ≡ false }
    ensures { IfOk result (λ examples. AreFirstMeeting walk.entry most examples.items) }
{
    let mut examples = Vec::new(alloc);
    let mut left = most;
    while left > 0 {
        match walk.next() {
            Some(example) => examples.push(example?)?,
            None => return Ok(examples),
        }
        left -= 1;
    }
    Ok(examples)
}
