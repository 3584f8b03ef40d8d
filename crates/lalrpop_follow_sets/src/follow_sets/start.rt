//! The start symbol by number, and its productions.
ghost use Rattle.std.specs.Prelude.{IfOk};
ghost use Rattle.lalrpop_grammar.specs.declared.repr.Symbol.TheVariants.{Nonterminal};
ghost use Rattle.lalrpop_follow_sets.specs.follow_sets.FollowNodes.{IsNumberOrCount, IsStart};
ghost use Rattle.lalrpop_base.specs.Words.{AreExpansions, SymbolsAscend};

use lalrpop_base::exact::equal;
use lalrpop_base::memory::OutOfMemory;
use lalrpop_base::numbers::Numbers;
use lalrpop_base::numbers::symbols::number_of;
use lalrpop_base::repr::{NonterminalString, Symbol};
use std::alloc::Global;

/// The start symbol.
#[derive(Drop)]
pub(super) struct Start {
    /// The number of the symbol, or the count of all symbols, if the start symbol is on no right
    /// side.
    pub(super) number: usize,
    /// The numbers of the start symbol's productions with the dot at the start.
    pub(super) expansions: Vec<usize>,
}

// The number of a nonterminal, or the count of all symbols, if the nonterminal is on no right side.
fn number_or_count(
    alloc: Global,
    symbols: &[Symbol],
    name: &NonterminalString,
) -> Result<usize, OutOfMemory>
    requires { SymbolsAscend symbols.now }
    ensures { IfOk result (IsNumberOrCount symbols.now name.now) }
{
    let symbol = Symbol::Nonterminal(name.clone(alloc)?);
    match number_of(symbols, &symbol) {
        Some(number) => Ok(number),
        None => Ok(symbols.len()),
    }
}

/// The numbers of the productions of a nonterminal with the dot at the start.
pub(crate) fn expansions_by_name(
    alloc: Global,
    numbers: &Numbers,
    name: &NonterminalString,
) -> Result<Vec<usize>, OutOfMemory>
    ensures { IfOk result (λ expansions. AreExpansions numbers.now.items.items
        (Nonterminal name.now) expansions.items) }
{
    let mut expansions = Vec::new(alloc);
    for number in 0..numbers.items.len() {
        let item = &numbers.items[number];
        if item.index == 0 && equal(&item.production.nonterminal, name) {
            expansions.push(number)?;
        }
    }
    Ok(expansions)
}

impl Start {
    /// The start symbol by number.
    pub(super) fn new(
        alloc: Global,
        numbers: &Numbers,
        name: &NonterminalString,
    ) -> Result<Start, OutOfMemory>
        requires { SymbolsAscend numbers.now.symbols.items }
        ensures { IfOk result (IsStart numbers.now name.now) }
    {
        let number = number_or_count(alloc, &numbers.symbols, name)?;
        let expansions = expansions_by_name(alloc, numbers, name)?;
        Ok(Start { number, expansions })
    }
}
