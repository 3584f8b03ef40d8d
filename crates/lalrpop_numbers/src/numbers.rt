//! The symbols and dotted productions of a grammar, by number.
mod dotted;
mod expansions;
mod halving;
pub mod numbered;
pub mod suffixes;
pub mod symbols;

ghost use Rattle.std.specs.Prelude.{◌≡◌, Contains, IfOk, IfSome, IsNone, Some, length, slice_get};
ghost use Rattle.lalrpop_grammar.specs.Words.{IsWellFormed, Rules, rules_of};

use dotted::dotted_productions;
use expansions::expansions_of;
use halving::place_of_production;
use lalrpop_collections::memory::OutOfMemory;
use lalrpop_grammar::first::FirstSets;
use lalrpop_grammar::repr::Symbol;
use lalrpop_grammar::repr::grammar::Grammar;
use lalrpop_states::lr1_core::item::Lr0Item;
use std::alloc::Global;
use suffixes::{Suffix, suffixes_of};
use symbols::{list_symbols, numbers_behind};

/// The symbols and dotted productions of a grammar. The number of each is its place in its list.
#[derive(Drop)]
pub struct Numbers<'grammar> {
    /// The dotted productions, ascending. If a dot can move, the next entry has the dot moved.
    pub items: Vec<Lr0Item<'grammar>>,
    /// For each dotted production, the number of the symbol after its dot.
    pub behind: Vec<Option<usize>>,
    /// The symbols of right sides, ascending.
    pub symbols: Vec<Symbol>,
    /// For each symbol, the numbers of its productions with the dot at the start.
    pub expansions: Vec<Vec<usize>>,
    /// For each dotted production, its suffix, if a nonterminal is after its dot.
    pub suffixes: Vec<Option<Suffix>>,
    pub ghost counted: { length behind.items ≡ length items.items },
    pub ghost expanded: { length expansions.items ≡ length symbols.items },
}

impl<'grammar> Numbers<'grammar> {
    ghost use Rattle.lalrpop_numbers.specs.numbers.Numbers.{AreNumbers};

    /// The numbers of a grammar. Each symbol of a right side is looked up by its text twice, in
    /// logarithmic time.
    pub fn new(
        alloc: Global,
        grammar: &'grammar Grammar,
        first_sets: &FirstSets<'grammar>,
    ) -> Result<Self, OutOfMemory>
        requires well_formed { IsWellFormed grammar.now }
        requires firsts { first_sets.now ≡ rules_of grammar.now }
        ensures { IfOk result (AreNumbers (rules_of grammar.now)) }
    {
        let items = dotted_productions(alloc, grammar)?;
        let symbols = list_symbols(alloc, &items)?;
        let behind = numbers_behind(alloc, &symbols, &items)?;
        let expansions = expansions_of(alloc, &symbols, &items)?;
        let suffixes = suffixes_of(alloc, first_sets, &grammar.terminals, &items)?;
        Ok(Numbers {
            items,
            behind,
            symbols,
            expansions,
            suffixes,
        })
    }

    /// The number of a dotted production. The dotted productions of one production are next to each
    /// other, in the order of their dots. So the number of any of them gives those of the others.
    pub fn number_of(&self, item: &Lr0Item<'grammar>) -> Option<usize>
        requires { (g : Rules) × AreNumbers g self.now }
        ensures found { IfSome result (λ k. slice_get self.now.items.items k ≡ Some item.now) }
        ensures none { IsNone result → ¬ Contains self.now.items.items item.now }
    {
        match place_of_production(&self.items, item.production) {
            Some(place) => {
                let met = &self.items[place];
                Some(place - met.index + item.index)
            }
            None => None,
        }
    }
}
