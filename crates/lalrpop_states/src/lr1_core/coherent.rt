//! The test whether states are coherent: whether their numbers, edges and reductions agree with
//! their items.
ghost use Rattle.std.specs.Prelude.{◌≡◌, ◌-◌, ◌<◌, ◌↔◌, ℕ, List, slice_get, Some, IsTrue, IsNone, IfOk, IfSome};
ghost use Rattle.lalrpop_collections.specs.lists.Each.{EachItem};
ghost use Rattle.lalrpop_grammar.specs.grammars.Names.{symbol_text};
ghost use Rattle.lalrpop_states.specs.states.Coherent.{AreCoherent, IsCoherentState, IsCoherentEdge, IsCoherentStep, HasItem, StartsAtZero, AreFinished, IsAt, IsShiftedFrom, symbol_of_ref};
ghost use Rattle.lalrpop_states.specs.states.Edges.{state_edges};

use super::item::Item;
use super::state::{State, StateIndex};
use lalrpop_collections::exact::equal;
use lalrpop_collections::memory::OutOfMemory;
use lalrpop_grammar::repr::{NonterminalString, Production, Symbol, TerminalString};
use std::alloc::Global;
use std::fmt;

/// Whether the states are coherent.
///
/// The index of each state is its place in the list, and the first state has all dots at the
/// start. Each edge leads to a state of the list. The items there whose dot is past the start come
/// from items of the source, by moving the dot over the symbol of the edge. Each reduction is by
/// the production of a finished item. The empty list is coherent.
pub fn are_coherent<'grammar, L>(states: &[State<'grammar, L>]) -> bool
    ensures { IsTrue result ↔ AreCoherent states.now }
{
    for (place, state) in states.iter().enumerate() {
        if !is_coherent_state(states, place, state) {
            return false;
        }
    }
    true
}

// Whether a state meets the conditions of `are_coherent`, if its place in the list is `place`.
fn is_coherent_state<'grammar, L>(
    states: &[State<'grammar, L>],
    place: usize,
    state: &State<'grammar, L>,
) -> bool
    ensures { IsTrue result ↔ IsCoherentState states.now place state.now }
{
    let items = state.items.vec.as_slice();
    if state.index.0 != place {
        return false;
    }
    if !starts_right(place, items) {
        return false;
    }
    if !have_coherent_edges(states, items, state) {
        return false;
    }
    are_finished(items, &state.reductions)
}

// Whether all dots are at the start, if the state is the first one.
fn starts_right<'grammar, L>(place: usize, items: &[Item<'grammar, L>]) -> bool
    ensures { IsTrue result ↔ (place ≡ 0 → StartsAtZero items.now) }
{
    place > 0 || starts_at_zero(items)
}

// Whether all dots are at the start.
fn starts_at_zero<'grammar, L>(items: &[Item<'grammar, L>]) -> bool
    ensures { IsTrue result ↔ StartsAtZero items.now }
{
    for item in items {
        if item.index > 0 {
            return false;
        }
    }
    true
}

// Whether each reduction is by the production of a finished item of the list.
fn are_finished<'grammar, L>(
    items: &[Item<'grammar, L>],
    reductions: &[(L, &'grammar Production)],
) -> bool
    ensures { IsTrue result ↔ AreFinished items.now reductions.now }
{
    for reduction in reductions {
        let production = reduction.1;
        if !has_item(items, production, production.symbols.len()) {
            return false;
        }
    }
    true
}

// Whether each edge of a state leads to a state of the list whose moved items come from the given
// items.
fn have_coherent_edges<'grammar, L>(
    states: &[State<'grammar, L>],
    items: &[Item<'grammar, L>],
    state: &State<'grammar, L>,
) -> bool
    ensures { IsTrue result ↔ EachItem
        (λ edge. IsCoherentStep states.now items.now edge.0 edge.1.0)
        (state_edges state.now.shifts.entries state.now.gotos.entries) }
{
    for (symbol, target) in state.edges() {
        if !is_coherent_step(states, items, symbol, target) {
            return false;
        }
    }
    true
}

/// A symbol whose name is borrowed, so that making one allocates nothing.
#[derive(Clone, Copy, Debug, PartialEq, Eq)]
pub enum SymbolRef<'a> {
    Nonterminal(&'a NonterminalString),
    Terminal(&'a TerminalString),
}

impl SymbolRef<'_> {
    /// The symbol with a copy of the name. `OutOfMemory` if an allocation fails.
    pub fn to_symbol(self, alloc: Global) -> Result<Symbol, OutOfMemory>
        ensures { IfOk result (λ symbol. symbol ≡ symbol_of_ref self.entry) }
    {
        match self {
            SymbolRef::Nonterminal(name) => Ok(Symbol::Nonterminal(name.clone(alloc)?)),
            SymbolRef::Terminal(terminal) => Ok(Symbol::Terminal(terminal.clone(alloc)?)),
        }
    }
}

impl fmt::Display for SymbolRef<'_> {
    ghost output = { λ symbol. Some (symbol_text (symbol_of_ref symbol)) };

    ghost styled_output = { λ symbol _. Some (symbol_text (symbol_of_ref symbol)) };

    fn fmt<W: fmt::Write>(&self, f: &mut fmt::Formatter<W>) -> fmt::Result {
        match self {
            SymbolRef::Nonterminal(name) => fmt::Display::fmt(*name, f),
            SymbolRef::Terminal(terminal) => fmt::Display::fmt(*terminal, f),
        }
    }
}

// Whether two symbols are equal.
fn is_symbol(symbol: &Symbol, wanted: SymbolRef) -> bool
    ensures { IsTrue result ↔ (symbol.now ≡ symbol_of_ref wanted.entry) }
{
    match (symbol, wanted) {
        (Symbol::Nonterminal(a), SymbolRef::Nonterminal(b)) => equal(a, b),
        (Symbol::Terminal(a), SymbolRef::Terminal(b)) => equal(a, b),
        (Symbol::Nonterminal(_), SymbolRef::Terminal(_)) => false,
        (Symbol::Terminal(_), SymbolRef::Nonterminal(_)) => false,
    }
}

// Whether an edge leads to a state of the list whose moved items come from items of the source.
fn is_coherent_step<'grammar, L>(
    states: &[State<'grammar, L>],
    source: &[Item<'grammar, L>],
    symbol: SymbolRef,
    target: StateIndex,
) -> bool
    ensures { IsTrue result ↔ IsCoherentStep states.now source.now (symbol_of_ref symbol.entry)
        target.0 }
{
    if target.0 >= states.len() {
        return false;
    }
    let to = &states[target.0];
    is_coherent_edge(source, symbol, &to.items.vec)
}

// Whether one of the items is the production with the dot at the index.
fn has_item<'grammar, L>(items: &[Item<'grammar, L>], production: &Production, index: usize) -> bool
    ensures { IsTrue result ↔ HasItem items.now production.now index }
{
    item_place(items, production, index, 0).is_some()
}

// The first place, from one on, of an item that is the production with the dot at the index.
fn item_place<'grammar, L>(
    items: &[Item<'grammar, L>],
    production: &Production,
    index: usize,
    from: usize,
) -> Option<usize>
    ensures found { IfSome result (λ place. HasItem items.now production.now index) }
    ensures absent { IsNone result → from ≡ 0 → ¬ HasItem items.now production.now index }
{
    for place in from..items.len() {
        if is_at(&items[place], production, index) {
            return Some(place);
        }
    }
    None
}

// Whether an item is the production with the dot at the index.
fn is_at<'grammar, L>(item: &Item<'grammar, L>, production: &Production, index: usize) -> bool
    ensures { IsTrue result ↔ IsAt item.now production.now index }
{
    item.index == index
        && item.production.symbols.len() == production.symbols.len()
        && equal(item.production, production)
}

// Whether each item of the target whose dot is past the start comes from an item of the source, by
// moving the dot over the symbol. Each search begins where the last one ended, since most states
// list their items in one order.
fn is_coherent_edge<'grammar, L>(
    source: &[Item<'grammar, L>],
    symbol: SymbolRef,
    target: &[Item<'grammar, L>],
) -> bool
    ensures { IsTrue result ↔ IsCoherentEdge source.now (symbol_of_ref symbol.entry) target.now }
{
    let mut from = 0;
    for item in target {
        match source_place(source, symbol, item, from) {
            Some(place) => from = place,
            None => return false,
        }
    }
    true
}

// The place in the source of the item that an item comes from over the symbol, or `from` if the dot
// of the item is at the start. It is sought from `from` on, and then from the first place on.
fn source_place<'grammar, L>(
    source: &[Item<'grammar, L>],
    symbol: SymbolRef,
    item: &Item<'grammar, L>,
    from: usize,
) -> Option<usize>
    ensures found { IfSome result (λ place. 0 < item.now.index →
        IsShiftedFrom source.now (symbol_of_ref symbol.entry) item.now) }
    ensures absent { IsNone result →
        ¬ (0 < item.now.index → IsShiftedFrom source.now (symbol_of_ref symbol.entry) item.now) }
{
    if item.index == 0 {
        return Some(from);
    }
    if !is_symbol(item.shifted_symbol(), symbol) {
        return None;
    }
    match item_place(source, item.production, item.index - 1, from) {
        Some(place) => Some(place),
        None => item_place(source, item.production, item.index - 1, 0),
    }
}
