//! The productions of the nonterminals, by number.
ghost use Rattle.std.specs.Prelude.{◌≡◌, IfOk, OnOk, length};
ghost use Rattle.lalrpop_numbers.specs.numbers.Numbering.{AddsStart, AreAllExpansions, AreEmpty, IsNumberOf, lists_of};
ghost use Rattle.lalrpop_numbers.specs.numbers.Numbers.{SymbolsAscend};

use super::symbols::number_of;
use lalrpop_collections::memory::OutOfMemory;
use lalrpop_grammar::repr::{NonterminalString, Symbol};
use lalrpop_states::lr1_core::item::Lr0Item;
use std::alloc::Global;

// A list of `count` empty lists.
fn empty_lists(alloc: Global, count: usize) -> Result<Vec<Vec<usize>>, OutOfMemory>
    ensures { IfOk result (λ lists. AreEmpty count (lists_of lists.items)) }
{
    let mut lists = Vec::new(alloc);
    for _place in 0..count {
        lists.push(Vec::new(alloc))?;
    }
    Ok(lists)
}

// The number of a nonterminal, if it is on a right side.
fn number_of_name(
    alloc: Global,
    symbols: &[Symbol],
    name: &NonterminalString,
) -> Result<Option<usize>, OutOfMemory>
    requires { SymbolsAscend symbols.now }
    ensures { IfOk result (IsNumberOf symbols.now (Symbol.Nonterminal name.now)) }
{
    let symbol = Symbol::Nonterminal(name.clone(alloc)?);
    Ok(number_of(symbols, &symbol))
}

// Appends the number of an item to the list of its nonterminal, if its dot is at the start and the
// nonterminal is one of the symbols.
fn add_start<'grammar>(
    alloc: Global,
    symbols: &[Symbol],
    item: &Lr0Item<'grammar>,
    number: usize,
    expansions: &mut Vec<Vec<usize>>,
) -> Result<(), OutOfMemory>
    requires ascend { SymbolsAscend symbols.now }
    requires counted { length expansions.old.items ≡ length symbols.now }
    ensures { OnOk result (AddsStart symbols.now item.now number (lists_of expansions.old.items)
        (lists_of expansions.new.items)) }
{
    if item.index > 0 {
        return Ok(());
    }
    let Some(place) = number_of_name(alloc, symbols, &item.production.nonterminal)? else {
        return Ok(());
    };
    expansions[place].push(number)?;
    Ok(())
}

/// For each symbol, the numbers of its productions with the dot at the start, ascending.
pub(super) fn expansions_of<'grammar>(
    alloc: Global,
    symbols: &[Symbol],
    items: &[Lr0Item<'grammar>],
) -> Result<Vec<Vec<usize>>, OutOfMemory>
    requires { SymbolsAscend symbols.now }
    ensures { IfOk result
        (λ expansions. AreAllExpansions symbols.now items.now (lists_of expansions.items)) }
{
    let mut expansions = empty_lists(alloc, symbols.len())?;
    for number in 0..items.len() {
        add_start(alloc, symbols, &items[number], number, &mut expansions)?;
    }
    Ok(expansions)
}
