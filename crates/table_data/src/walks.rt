//! Examples of how the items of the actions of conflicts come about.
ghost use Rattle.std.specs.Prelude.{◌≡◌, ◌++◌, Some, IfOk, OnOk, map, slice_get};
ghost use Rattle.lalrpop_traces.specs.Words.{items_at};
ghost use Rattle.table_data.specs.Conflicts.{AreShown, ShowsItems, is_terminal, place_if, place_of_shown, action_places, reduced_places, shifted_places, shifts};

use super::conflicts::ShownConflict;
use super::examples::ShownItem;
use lalrpop_base::first::FirstSets;
use lalrpop_base::lr1_core::item::{Item, Lr1Item};
use lalrpop_base::lr1_core::state::{Action, Lr1Conflict, Lr1State, StateIndex};
use lalrpop_base::memory::OutOfMemory;
use lalrpop_base::repr::terminals::TerminalSet;
use lalrpop_base::repr::{Production, Symbol, TerminalString};
use lalrpop_traces::trace::{Example, Tracer};
use std::alloc::Global;

// The greatest number of examples that are shown of an item.
const MOST: usize = 3;

/// States, the FIRST sets and the terminals of their grammar, and the tracer over the states.
#[derive(Drop)]
pub(crate) struct Context<'context, 'grammar> {
    pub(crate) states: &'context [Lr1State<'grammar>],
    pub(crate) first_sets: &'context FirstSets<'grammar>,
    pub(crate) terminals: &'context TerminalSet,
    pub(crate) tracer: &'context Tracer<'context, 'grammar>,
    ghost numbered: { terminals.now ≡ first_sets.now.terminals },
}

/// The conflicts, each with examples of how its actions come about.
pub(crate) fn shown_conflicts<'conflicts, 'grammar>(
    alloc: Global,
    context: &Context<'_, 'grammar>,
    conflicts: &'conflicts [Lr1Conflict<'grammar>],
) -> Result<Vec<ShownConflict<'conflicts, 'grammar>>, OutOfMemory>
    ensures { IfOk result (λ shown. AreShown context.now.states.now conflicts.now shown.items) }
{
    let mut shown = Vec::new(alloc);
    for conflict in conflicts {
        shown.push(shown_conflict(alloc, context, conflict)?)?;
    }
    Ok(shown)
}

// A conflict with examples of how its actions come about.
fn shown_conflict<'conflicts, 'grammar>(
    alloc: Global,
    context: &Context<'_, 'grammar>,
    conflict: &'conflicts Lr1Conflict<'grammar>,
) -> Result<ShownConflict<'conflicts, 'grammar>, OutOfMemory>
    ensures conflict { IfOk result (λ shown. shown.conflict.now ≡ conflict.now) }
    ensures items { IfOk result (ShowsItems context.now.states.now) }
{
    let reduction = shown_reduction(alloc, context, conflict, conflict.production)?;
    let other = shown_action(alloc, context, conflict)?;
    Ok(ShownConflict {
        conflict,
        reduction,
        other,
    })
}

// The items of the other action of a conflict, with examples.
fn shown_action<'grammar>(
    alloc: Global,
    context: &Context<'_, 'grammar>,
    conflict: &Lr1Conflict<'grammar>,
) -> Result<Vec<ShownItem>, OutOfMemory>
    ensures { IfOk result (λ shown. map place_of_shown shown.items ≡ action_places
        context.now.states.now conflict.now.state conflict.now.action) }
{
    match &conflict.action {
        Action::Shift(terminal, _) => shown_shifts(alloc, context, conflict.state, terminal),
        Action::Reduce(production) => shown_reduction(alloc, context, conflict, *production),
    }
}

// The finished item of a reduction of a conflict, with examples that can go on with a token of the
// conflict.
fn shown_reduction<'grammar>(
    alloc: Global,
    context: &Context<'_, 'grammar>,
    conflict: &Lr1Conflict<'grammar>,
    production: &'grammar Production,
) -> Result<Vec<ShownItem>, OutOfMemory>
    ensures { IfOk result
        (λ shown. map place_of_shown shown.items ≡ reduced_places production.now) }
{
    let item = Item {
        production,
        index: production.symbols.len(),
        lookahead: conflict.lookahead.clone(alloc)?,
    };
    let examples = meeting_examples(alloc, context, conflict.state, &item)?;
    let mut shown = Vec::new(alloc);
    shown.push(ShownItem {
        production: production.action.index(),
        dot: production.symbols.len(),
        examples,
    })?;
    Ok(shown)
}

// The items of a state that shift a terminal, with examples.
fn shown_shifts<'grammar>(
    alloc: Global,
    context: &Context<'_, 'grammar>,
    state: StateIndex,
    terminal: &TerminalString,
) -> Result<Vec<ShownItem>, OutOfMemory>
    ensures { IfOk result (λ shown. map place_of_shown shown.items ≡ shifted_places terminal.now
        (items_at (slice_get context.now.states.now state.0))) }
{
    let mut shown = Vec::new(alloc);
    let items = items_in(context.states, state);
    for item in items {
        add_shift(alloc, &mut shown, context, state, terminal, item)?;
    }
    Ok(shown)
}

// Adds the item with examples, if it shifts the terminal.
fn add_shift<'grammar>(
    alloc: Global,
    shown: &mut Vec<ShownItem>,
    context: &Context<'_, 'grammar>,
    state: StateIndex,
    terminal: &TerminalString,
    item: &Lr1Item<'grammar>,
) -> Result<(), OutOfMemory>
    ensures { OnOk result (map place_of_shown shown.new.items ≡ map place_of_shown
        shown.old.items ++ place_if (shifts terminal.now item.now) item.now) }
{
    if !is_shifted(item, terminal) {
        return Ok(());
    }
    let examples = shifting_examples(alloc, context, state, item)?;
    shown.push(ShownItem {
        production: item.production.action.index(),
        dot: item.index,
        examples,
    })?;
    Ok(())
}

// The first examples of an item of a state that shifts.
fn shifting_examples<'grammar>(
    alloc: Global,
    context: &Context<'_, 'grammar>,
    state: StateIndex,
    item: &Lr1Item<'grammar>,
) -> Result<Vec<Example>, OutOfMemory> {
    let lr0_item = Item::lr0(item.production, item.index);
    let graph = context.tracer.backtrace_shift(alloc, state, lr0_item)?;
    let walk = graph.lr0_examples(alloc, Item::lr0(item.production, item.index))?;
    let mut examples = Vec::new(alloc);
    for example in walk.take(MOST) {
        examples.push(example?)?;
    }
    Ok(examples)
}

// The first examples of a finished item in a state that can go on with a token of its lookahead.
// There are none if the states have terminals that the grammar lacks.
fn meeting_examples<'grammar>(
    alloc: Global,
    context: &Context<'_, 'grammar>,
    state: StateIndex,
    item: &Lr1Item<'grammar>,
) -> Result<Vec<Example>, OutOfMemory> {
    let finished = Item::lr0(item.production, item.index);
    let graph = context.tracer.backtrace_reduce(alloc, state, finished)?;
    let mut examples = Vec::new(alloc);
    if !graph.is_known(context.terminals) {
        return Ok(examples);
    }
    for example in graph.lr1_examples(alloc, context.first_sets, item)? {
        if examples.len() == MOST {
            return Ok(examples);
        }
        examples.push(example?)?;
    }
    Ok(examples)
}

// The items of a state. The list is empty if there is no such state.
fn items_in<'a, 'grammar>(
    states: &'a [Lr1State<'grammar>],
    state: StateIndex,
) -> &'a [Lr1Item<'grammar>]
    ensures { result.now ≡ items_at (slice_get states.now state.0) }
{
    if state.0 < states.len() {
        return states[state.0].items.vec.as_slice();
    }
    &[]
}

// Whether the terminal comes directly after the dot of the item.
fn is_shifted(item: &Lr1Item<'_>, terminal: &TerminalString) -> bool
    ensures { result ≡ shifts terminal.now item.now }
{
    match item.shift_symbol() {
        Some((symbol, _)) => is_same(symbol, terminal),
        None => false,
    }
}

// Whether a symbol is the terminal.
fn is_same(symbol: &Symbol, terminal: &TerminalString) -> bool
    ensures { result ≡ is_terminal terminal.now (Some symbol.now) }
{
    match symbol {
        Symbol::Terminal(other) => *other == *terminal,
        Symbol::Nonterminal(_) => false,
    }
}
