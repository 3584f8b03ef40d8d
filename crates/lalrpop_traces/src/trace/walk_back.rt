//! A depth first walk over the nonterminals that a trace meets in states, with a stack of its own.
ghost use Rattle.std.specs.Prelude.{◌≡◌, ◌+◌, ◌∷◌, [], ◌++◌, Contains, OnOk, IfOk, length, map, drop, slice_get};
ghost use Rattle.lalrpop_traces.specs.traces.Traces.{Backtrace, Meeting, Takes, IsTraceOf};
ghost use Rattle.lalrpop_traces.specs.traces.TraceOrder.{come_to, take_up, take_up_each, items_at, IsInOrder};
ghost use Rattle.lalrpop_traces.specs.traces.Meetings.{asked, duties_of, duties_left, AreNamed, IsInsertedPair, HasMet, IsStep};

use super::context::Trace;
use super::edges_of_items::{ItemPlaces, add_own, add_shifting};
use super::trace_graph::TraceGraph;
use lalrpop_base::lr1_core::item::Lr1Item;
use lalrpop_base::lr1_core::state::StateIndex;
use lalrpop_base::memory::OutOfMemory;
use lalrpop_base::repr::NonterminalString;
use std::alloc::Global;
use std::collections::BTreeSet;

/// The graph that a trace has made so far, with the numbers of the edges of items, and the
/// nonterminals that it has met in states.
#[derive(Drop)]
pub(crate) struct Met<'grammar> {
    pub(crate) trace_graph: TraceGraph<'grammar>,
    pub(crate) places: ItemPlaces,
    pub(crate) visited_set: BTreeSet<(StateIndex, NonterminalString)>,
}

/// A task of a trace: to come to a nonterminal in a state, or to take the items of a state, from a
/// place on, for a nonterminal that was met there.
#[derive(Drop)]
pub(crate) enum Task<'grammar> {
    Meet(StateIndex, &'grammar NonterminalString),
    MeetItems(StateIndex, &'grammar NonterminalString, usize),
}

/// Adds the edge of the traced item. Then traces on from the nonterminal of the item, in each state
/// where the item began.
pub(crate) fn trace_item<'grammar>(
    alloc: Global,
    trace: &Trace<'_, '_, 'grammar>,
    met: &mut Met<'grammar>,
) -> Result<(), OutOfMemory>
    requires unmet { (m : Meeting) → HasMet met.old m → ⊥ }
    requires empty { met.old.trace_graph ≡ record { nodes = []; edges = [] } }
    ensures traced { OnOk result (IsTraceOf (asked trace.now) met.new.trace_graph) }
    ensures ordered { OnOk result (IsInOrder (asked trace.now) met.new.trace_graph) }
{
    let item = &trace.item;
    let production = item.production;
    let sources = trace
        .context
        .state_graph
        .trace_back(alloc, trace.state, item.prefix())?;
    add_own(alloc, &mut met.trace_graph, &mut met.places.own, item)?;
    let mut tasks = Vec::new(alloc);
    push_sources(sources, &production.nonterminal, &mut tasks)?;
    while let Some(task) = tasks.pop() {
        step(alloc, trace, met, task, &mut tasks)?;
    }
    Ok(())
}

// Pushes the task to come to a nonterminal in each of the states. The first state is on top.
fn push_sources<'grammar>(
    mut sources: Vec<StateIndex>,
    name: &'grammar NonterminalString,
    tasks: &mut Vec<Task<'grammar>>,
) -> Result<(), OutOfMemory>
    ensures duties { OnOk result ((b : Backtrace) → duties_left b tasks.new.items ≡
        map (λ n. come_to (n, name.now)) sources.items ++ duties_left b tasks.old.items) }
    ensures count { OnOk result
        (length tasks.new.items ≡ length tasks.old.items + length sources.items) }
{
    while let Some(source) = sources.pop() {
        tasks.push(Task::Meet(source, name))?;
    }
    Ok(())
}

// Marks a nonterminal as met in a state. The result is whether it was not met there before.
fn is_new<'grammar>(
    alloc: Global,
    met: &mut Met<'grammar>,
    state: StateIndex,
    name: &NonterminalString,
) -> Result<bool, OutOfMemory>
    ensures inserted { IfOk result
        (λ fresh. IsInsertedPair fresh (state, name.now) met.old.visited_set met.new.visited_set) }
    ensures graph { met.new.trace_graph ≡ met.old.trace_graph }
{
    let fresh = met.visited_set.insert((state, name.clone(alloc)?))?;
    Ok(fresh)
}

// Does a task that was on top of the stack, and pushes the tasks that follow from it.
fn step<'grammar>(
    alloc: Global,
    trace: &Trace<'_, '_, 'grammar>,
    met: &mut Met<'grammar>,
    task: Task<'grammar>,
    tasks: &mut Vec<Task<'grammar>>,
) -> Result<(), OutOfMemory>
    requires named { let b = asked trace.now in
        AreNamed b (duties_of b task ++ duties_left b tasks.old.items) }
    ensures { let b = asked trace.now in
        OnOk result (IsStep b met.old met.new (duties_of b task.entry ++ duties_left b
        tasks.old.items) (length tasks.old.items + 1) tasks.new.items) }
{
    match task {
        Task::Meet(state, name) => {
            if is_new(alloc, met, state, name)? {
                tasks.push(Task::MeetItems(state, name, 0))?;
            }
            Ok(())
        }
        Task::MeetItems(state, name, next) => {
            meet_items(alloc, trace, met, state, name, next, tasks)
        }
    }
}

// Takes the next item of a state, from a place on, that shifts a nonterminal. Before that, a task
// for the items after it is pushed.
fn meet_items<'grammar>(
    alloc: Global,
    trace: &Trace<'_, '_, 'grammar>,
    met: &mut Met<'grammar>,
    state: StateIndex,
    name: &'grammar NonterminalString,
    next: usize,
    tasks: &mut Vec<Task<'grammar>>,
) -> Result<(), OutOfMemory>
    requires named { let b = asked trace.now in AreNamed b (duties_left b tasks.old.items) }
    ensures { let b = asked trace.now in
        let items = items_at (slice_get b.states state.0) in
        OnOk result (IsStep b met.old met.new (take_up_each (state, name.now) (drop next items) ++
        duties_left b tasks.old.items) (length tasks.old.items + 1) tasks.new.items) }
{
    let states = trace.context.states;
    if state.0 >= states.len() {
        return Ok(());
    }
    let items = states[state.0].items.vec.as_slice();
    for place in next..items.len() {
        let item = &items[place];
        if item.can_shift_nonterminal(name) {
            tasks.push(Task::MeetItems(state, name, place + 1))?;
            return meet_item(alloc, trace, met, state, name, item, tasks);
        }
    }
    Ok(())
}

// Adds the edges of an item that shifts a nonterminal. If the trace goes on from the item, pushes
// the tasks to come to its own nonterminal in each state where it began.
fn meet_item<'grammar>(
    alloc: Global,
    trace: &Trace<'_, '_, 'grammar>,
    met: &mut Met<'grammar>,
    state: StateIndex,
    name: &NonterminalString,
    item: &Lr1Item<'grammar>,
    tasks: &mut Vec<Task<'grammar>>,
) -> Result<(), OutOfMemory>
    requires takes { Takes (asked trace.now) (state, name.now) item.now }
    requires named { let b = asked trace.now in AreNamed b (duties_left b tasks.old.items) }
    ensures { let b = asked trace.now in
        OnOk result (IsStep b met.old met.new (take_up (state, name.now) item.now ∷ duties_left b
        tasks.old.items) (length tasks.old.items) tasks.new.items) }
{
    if !add_shifting(
        alloc,
        trace,
        &mut met.trace_graph,
        &mut met.places,
        name,
        item,
    )? {
        return Ok(());
    }
    let production = item.production;
    let sources = trace
        .context
        .state_graph
        .trace_back(alloc, state, item.prefix())?;
    push_sources(sources, &production.nonterminal, tasks)
}
