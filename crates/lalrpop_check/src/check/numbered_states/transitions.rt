//! Tests whether items, transitions and reductions have the numbers that are expected of them.
ghost use Rattle.std.specs.Prelude.{◌≡◌, map, slice_get, Some, IfOk, IfSome, IsTrue, OnOk};
ghost use Rattle.lalrpop_base.specs.Words.{symbol_of_ref, with_dot};
ghost use Rattle.lalrpop_grammar.specs.declared.repr.Symbol.{Symbol as Symbols};
ghost use Rattle.lalrpop_grammar.specs.declared.repr.Symbol.TheVariants.{Nonterminal, Terminal};
ghost use Rattle.lalrpop_construction.specs.states.NumberedStates.{AddsEdges, AreItemsAt, AreReducedNumbers, HasKeys, IsKeyAt};

use lalrpop_base::exact::equal;
use lalrpop_base::lookahead::nil::Nil;
use lalrpop_base::lookahead::token_set::TokenSet;
use lalrpop_base::lr1_core::SymbolRef;
use lalrpop_base::lr1_core::item::Lr1Item;
use lalrpop_base::lr1_core::state::StateIndex;
use lalrpop_base::memory::OutOfMemory;
use lalrpop_base::numbers::Numbers;
use lalrpop_base::repr::{NonterminalString, Production, Symbol, TerminalString};
use std::alloc::Global;
use std::collections::BTreeMap;

// Whether a number is that of a production with the dot at a place. Dots are compared first.
fn is_number_of(numbers: &Numbers<'_>, number: usize, production: &Production, dot: usize) -> bool
    ensures { IsTrue result →
        slice_get numbers.now.items.items number ≡ Some (with_dot production.now dot) }
{
    if number >= numbers.items.len() {
        return false;
    }
    let met = &numbers.items[number];
    met.index == dot && equal(met.production, production)
}

/// Whether the items have the expected numbers, one by one.
pub(super) fn are_items<'grammar>(
    numbers: &Numbers<'grammar>,
    expected: &[usize],
    items: &[Lr1Item<'grammar>],
) -> bool
    ensures { IsTrue result → AreItemsAt numbers.now.items.items expected.now items.now }
{
    if expected.len() != items.len() {
        return false;
    }
    for (place, item) in items.iter().enumerate() {
        if !is_number_of(numbers, expected[place], item.production, item.index) {
            return false;
        }
    }
    true
}

/// Whether the finished items of the reductions have the expected numbers, one by one.
pub(super) fn are_reductions<'grammar>(
    numbers: &Numbers<'grammar>,
    expected: &[usize],
    reductions: &[(TokenSet, &'grammar Production)],
) -> bool
    ensures { IsTrue result →
        AreReducedNumbers numbers.now.items.items reductions.now expected.now }
{
    if expected.len() != reductions.len() {
        return false;
    }
    for (place, reduction) in reductions.iter().enumerate() {
        let production = reduction.1;
        let dot = production.symbols.len();
        if !is_number_of(numbers, expected[place], production, dot) {
            return false;
        }
    }
    true
}

/// The name of a symbol.
pub(super) trait Name: Ord {
    // The symbol that has the name.
    ghost symbol: { Self → Symbols };

    /// The name, as a symbol.
    fn as_symbol(&self) -> SymbolRef<'_>
        ensures { symbol_of_ref result ≡ symbol self.now };
}

impl Name for NonterminalString {
    ghost symbol = { Nonterminal };

    fn as_symbol(&self) -> SymbolRef<'_> {
        SymbolRef::Nonterminal(self)
    }
}

impl Name for TerminalString {
    ghost symbol = { Terminal };

    fn as_symbol(&self) -> SymbolRef<'_> {
        SymbolRef::Terminal(self)
    }
}

// Whether a number is that of a symbol.
fn is_number_of_symbol(symbols: &[Symbol], number: usize, symbol: SymbolRef<'_>) -> bool
    ensures { IsTrue result → slice_get symbols.now number ≡ Some (symbol_of_ref symbol.entry) }
{
    if number >= symbols.len() {
        return false;
    }
    match (&symbols[number], symbol) {
        (Symbol::Nonterminal(met), SymbolRef::Nonterminal(name)) => equal(met, name),
        (Symbol::Terminal(met), SymbolRef::Terminal(terminal)) => equal(met, terminal),
        _ => false,
    }
}

// The number that is expected at a place.
fn expected_at(expected: &[(usize, Nil)], place: usize) -> Option<usize>
    ensures { IfSome result (λ number. IsKeyAt expected.now place number) }
{
    if place < expected.len() {
        Some(expected[place].0)
    } else {
        None
    }
}

/// Appends the gotos or the shifts of a state to `edges`, up to the first that does not have the
/// expected number. Returns whether all of them have their expected numbers.
pub(super) fn take_edges<K: Name>(
    symbols: &[Symbol],
    expected: &[(usize, Nil)],
    targets: &BTreeMap<K, StateIndex>,
    edges: &mut Vec<(usize, usize)>,
) -> Result<bool, OutOfMemory>
    ensures taken { IfOk result (λ yes. IsTrue yes →
        AddsEdges symbols.now edges.old.items edges.new.items
        (map (λ (e : K × StateIndex). (K.symbol e.0, e.1)) targets.now.entries)) }
    ensures keys { OnOk result
        (HasKeys edges.old.items expected.now → HasKeys edges.new.items expected.now) }
{
    for (name, target) in targets.iter() {
        let Some(number) = expected_at(expected, edges.len()) else {
            return Ok(false);
        };
        if !is_number_of_symbol(symbols, number, name.as_symbol()) {
            return Ok(false);
        }
        edges.push((number, target.0))?;
    }
    Ok(true)
}
