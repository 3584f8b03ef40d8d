//! The items that shift a terminal, with their examples.
ghost use Rattle.std.specs.Prelude.{◌≡◌, ◌↔◌, IfOk, OnOk, IsTrue, Some, slice_get};
ghost use Rattle.lalrpop_explain.specs.explained.ExplainedConflicts.{AddsIfShifting, AreExplainedShifts, IsExplainedShift};
ghost use Rattle.lalrpop_traces.specs.Words.{items_at};

use super::ExplainedItem;
use super::context::{Context, items_in};
use super::examples::shift_examples;
use lalrpop_base::exact::equal;
use lalrpop_base::lr1_core::item::Lr1Item;
use lalrpop_base::lr1_core::state::StateIndex;
use lalrpop_base::memory::OutOfMemory;
use lalrpop_base::repr::{Symbol, TerminalString};
use std::alloc::Global;

/// The items of a state that shift the terminal, with examples.
pub(crate) fn explained_shifts<'grammar>(
    alloc: Global,
    context: &Context<'_, 'grammar>,
    state: StateIndex,
    terminal: &TerminalString,
    most: usize,
) -> Result<Vec<ExplainedItem<'grammar>>, OutOfMemory>
    ensures { IfOk result (λ list. AreExplainedShifts context.now.first_sets.now
        context.now.states.now most state terminal.now
        (items_at (slice_get context.now.states.now state.0)) list.items) }
{
    let items = items_in(context.states, state);
    let list = explained_items(alloc, context, state, terminal, items, most)?;
    Ok(list)
}

// The items of a list that shift the terminal, with examples.
fn explained_items<'grammar>(
    alloc: Global,
    context: &Context<'_, 'grammar>,
    state: StateIndex,
    terminal: &TerminalString,
    items: &[Lr1Item<'grammar>],
    most: usize,
) -> Result<Vec<ExplainedItem<'grammar>>, OutOfMemory>
    ensures { IfOk result (λ list. AreExplainedShifts context.now.first_sets.now
        context.now.states.now most state terminal.now items.now list.items) }
{
    let mut list = Vec::new(alloc);
    for item in items {
        add_shift(alloc, &mut list, context, state, terminal, item, most)?;
    }
    Ok(list)
}

// Adds an item with examples, if it shifts the terminal.
fn add_shift<'grammar>(
    alloc: Global,
    list: &mut Vec<ExplainedItem<'grammar>>,
    context: &Context<'_, 'grammar>,
    state: StateIndex,
    terminal: &TerminalString,
    item: &Lr1Item<'grammar>,
    most: usize,
) -> Result<(), OutOfMemory>
    ensures { OnOk result (AddsIfShifting context.now.first_sets.now context.now.states.now most
        state terminal.now item.now list.old.items list.new.items) }
{
    if !shifts(item, terminal) {
        return Ok(());
    }
    let explained = explained_shift(alloc, context, state, item, most)?;
    list.push(explained)?;
    Ok(())
}

// An item of a state that shifts, with examples.
fn explained_shift<'grammar>(
    alloc: Global,
    context: &Context<'_, 'grammar>,
    state: StateIndex,
    item: &Lr1Item<'grammar>,
    most: usize,
) -> Result<ExplainedItem<'grammar>, OutOfMemory>
    ensures { IfOk result (IsExplainedShift context.now.first_sets.now context.now.states.now most
        state item.now) }
{
    let examples = shift_examples(alloc, context, state, item, most)?;
    Ok(ExplainedItem {
        production: item.production,
        index: item.index,
        examples,
    })
}

// Whether the terminal comes directly after the dot of the item.
fn shifts(item: &Lr1Item<'_>, terminal: &TerminalString) -> bool
    ensures { IsTrue result ↔ (slice_get item.now.production.symbols item.now.index ≡ Some
        (Symbol.Terminal terminal.now)) }
{
    match item.shift_symbol() {
        Some((symbol, _)) => is_terminal(symbol, terminal),
        None => false,
    }
}

// Whether a symbol is the terminal.
fn is_terminal(symbol: &Symbol, terminal: &TerminalString) -> bool
    ensures { IsTrue result ↔ (symbol.now ≡ Symbol.Terminal terminal.now) }
{
    match symbol {
        Symbol::Terminal(other) => equal(other, terminal),
        Symbol::Nonterminal(_) => false,
    }
}
