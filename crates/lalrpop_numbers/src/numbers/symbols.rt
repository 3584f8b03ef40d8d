//! The symbols after dots, ascending, and their numbers.
ghost use Rattle.std.specs.Prelude.{◌≡◌, IfOk, OnOk, Contains};
ghost use Rattle.lalrpop_numbers.specs.numbers.Numbering.{AddsThose, AreNumbersBehind, IsNumberOf};
ghost use Rattle.lalrpop_numbers.specs.numbers.Numbers.{AreBehindDots, IsNumberBehind, SymbolsAscend};
ghost use Rattle.lalrpop_states.specs.construction.Transitions.{IsBehind};

use lalrpop_collections::collections::sets::{add_key, has_key};
use lalrpop_collections::memory::OutOfMemory;
use lalrpop_grammar::repr::Symbol;
use lalrpop_states::lr1_core::item::Lr0Item;
use std::alloc::Global;
use std::collections::BTreeSet;

// Adds the symbol after the dot. It is copied if it is new.
fn add_symbol<'grammar>(
    alloc: Global,
    item: &Lr0Item<'grammar>,
    symbols: &mut BTreeSet<Symbol>,
) -> Result<(), OutOfMemory>
    ensures { OnOk result
        (AddsThose (λ s. IsBehind s item.now) symbols.old.keys symbols.new.keys) }
{
    let Some((symbol, _rest)) = item.shift_symbol() else {
        return Ok(());
    };
    if has_key(symbols, symbol) {
        return Ok(());
    }
    add_key(symbols, symbol.clone(alloc)?)?;
    Ok(())
}

// The symbols after dots.
fn symbols_behind<'grammar>(
    alloc: Global,
    items: &[Lr0Item<'grammar>],
) -> Result<BTreeSet<Symbol>, OutOfMemory>
    ensures { IfOk result (λ symbols. AreBehindDots items.now symbols.keys) }
{
    let mut symbols = BTreeSet::new(alloc);
    for item in items {
        add_symbol(alloc, item, &mut symbols)?;
    }
    Ok(symbols)
}

// The symbols of a set, in its order.
fn list_set(alloc: Global, set: BTreeSet<Symbol>) -> Result<Vec<Symbol>, OutOfMemory>
    ensures same { IfOk result (λ symbols. symbols.items ≡ set.keys) }
    ensures ascend { IfOk result (λ symbols. SymbolsAscend symbols.items) }
{
    let mut symbols = Vec::new(alloc);
    for symbol in set {
        symbols.push(symbol)?;
    }
    Ok(symbols)
}

/// The symbols after dots, ascending. A symbol that is after several dots is copied once.
pub(super) fn list_symbols<'grammar>(
    alloc: Global,
    items: &[Lr0Item<'grammar>],
) -> Result<Vec<Symbol>, OutOfMemory>
    ensures behind { IfOk result (λ symbols. AreBehindDots items.now symbols.items) }
    ensures ascend { IfOk result (λ symbols. SymbolsAscend symbols.items) }
{
    let set = symbols_behind(alloc, items)?;
    list_set(alloc, set)
}

/// The number of a symbol, by binary search.
pub fn number_of(symbols: &[Symbol], symbol: &Symbol) -> Option<usize>
    requires { SymbolsAscend symbols.now }
    ensures { IsNumberOf symbols.now symbol.now result }
{
    match symbols.binary_search(symbol) {
        Ok(number) => Some(number),
        Err(_) => None,
    }
}

// The number of the symbol after a dot.
#[tactic(auto, using(crate::proofs::theory::numbers::Numbering::behind_of))]
fn number_behind<'grammar>(symbols: &[Symbol], item: &Lr0Item<'grammar>) -> Option<usize>
    requires ascend { SymbolsAscend symbols.now }
    requires known { (s : _) → IsBehind s item.now → Contains symbols.now s }
    ensures { IsNumberBehind symbols.now item.now result }
{
    match item.shift_symbol() {
        Some((symbol, _rest)) => number_of(symbols, symbol),
        None => None,
    }
}

/// For each dotted production, the number of the symbol after its dot.
pub(super) fn numbers_behind<'grammar>(
    alloc: Global,
    symbols: &[Symbol],
    items: &[Lr0Item<'grammar>],
) -> Result<Vec<Option<usize>>, OutOfMemory>
    requires ascend { SymbolsAscend symbols.now }
    requires known { AreBehindDots items.now symbols.now }
    ensures { IfOk result (λ behind. AreNumbersBehind symbols.now items.now behind.items) }
{
    let mut behind = Vec::new(alloc);
    for item in items {
        behind.push(number_behind(symbols, item))?;
    }
    Ok(behind)
}
