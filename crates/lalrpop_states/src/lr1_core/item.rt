//! Items: productions with a dot and a lookahead.
ghost use Rattle.std.specs.Prelude.{◌≡◌, ◌+◌, ◌-◌, ◌<◌, ◌≤◌, ◌==◌, ◌↔◌, ℕ, List, length, take, drop, IsTrue, IfOk, IfSome, IsNone, Some, None, slice_get, option_copied};
ghost use Rattle.lalrpop_states.specs.states.Items.{Dotted};

use super::symbol_sets::SymbolSets;
use crate::lookahead::nil::Nil;
use lalrpop_collections::exact::equal;
use lalrpop_grammar::lookahead::token_set::TokenSet;
use lalrpop_grammar::repr::{NonterminalString, Production, Symbol};
use std::fmt;
use std::marker::Model;

/// An item: a production, the number of its symbols before the dot, and a lookahead.
#[derive(Drop)]
pub struct Item<'grammar, L> {
    pub production: &'grammar Production,
    pub index: usize,
    pub lookahead: L,
}

impl<'grammar, L> Model for Item<'grammar, L> {
    ghost use Rattle.std.specs.Prelude.{◌≤◌, length};
    ghost use Rattle.lalrpop_states.specs.states.Items.{Dotted};

    ghost Value = { Dotted L };

    ghost view = { λ i. record
        { production = i.production.now; index = i.index; lookahead = i.lookahead } };

    ghost invariant = { λ i. i.index ≤ length i.production.now.symbols };
}

/// An item without lookahead.
pub type Lr0Item<'grammar> = Item<'grammar, Nil>;

/// An item whose lookahead is a set of tokens.
pub type Lr1Item<'grammar> = Item<'grammar, TokenSet>;

impl<'grammar, L> Item<'grammar, L> {
    /// The symbols before the dot.
    pub fn prefix(&self) -> &'grammar [Symbol]
        ensures { result.now ≡ take self.now.index self.now.production.symbols }
    {
        let production = self.production;
        &production.symbols.as_slice()[..self.index]
    }

    /// The symbols after the dot.
    pub fn rest(&self) -> &'grammar [Symbol]
        ensures { result.now ≡ drop self.now.index self.now.production.symbols }
    {
        let production = self.production;
        &production.symbols.as_slice()[self.index..]
    }

    /// The symbols before the dot, the symbol after the dot, and the symbols after that one.
    pub fn symbol_sets(&self) -> SymbolSets<'grammar>
        ensures prefix { result.prefix.now ≡ take self.now.index self.now.production.symbols }
        ensures cursor { option_copied result.cursor ≡ slice_get self.now.production.symbols
            self.now.index }
        ensures suffix { result.suffix.now ≡ drop (self.now.index + 1) self.now.production.symbols }
    {
        match self.shift_symbol() {
            Some((symbol, rest)) => SymbolSets {
                prefix: self.prefix(),
                cursor: Some(symbol),
                suffix: rest,
            },
            None => SymbolSets {
                prefix: self.prefix(),
                cursor: None,
                suffix: &[],
            },
        }
    }

    /// The item with the same production and dot, and with the given lookahead.
    pub fn with_lookahead<M>(&self, lookahead: M) -> Item<'grammar, M>
        ensures production { result.production ≡ self.now.production }
        ensures index { result.index ≡ self.now.index }
        ensures lookahead { result.lookahead ≡ lookahead }
    {
        Item {
            production: self.production,
            index: self.index,
            lookahead,
        }
    }

    /// Whether the symbol after the dot is the nonterminal.
    pub fn can_shift_nonterminal(&self, nonterminal: &NonterminalString) -> bool
        ensures { IsTrue result ↔ (slice_get self.now.production.symbols self.now.index ≡ Some
            (Symbol.Nonterminal nonterminal.now)) }
    {
        match self.shift_symbol() {
            Some((symbol, _)) => is_nonterminal(symbol, nonterminal),
            None => false,
        }
    }

    /// The symbol before the dot. The dot must be past the start.
    pub fn shifted_symbol(&self) -> &'grammar Symbol
        requires { 0 < self.now.index }
        ensures { slice_get self.now.production.symbols (self.now.index - 1) ≡ Some result.now }
    {
        let symbols = self.production.symbols.as_slice();
        &symbols[self.index - 1]
    }

    /// Whether there is a symbol after the dot.
    pub fn can_shift(&self) -> bool
        ensures { IsTrue result ↔ (self.now.index < length self.now.production.symbols) }
    {
        self.index < self.production.symbols.len()
    }

    /// Whether the item is finished: its dot is at the end.
    pub fn can_reduce(&self) -> bool
        ensures { IsTrue result ↔ (self.now.index ≡ length self.now.production.symbols) }
    {
        self.index == self.production.symbols.len()
    }

    /// The symbol after the dot, and the symbols after that one. `None` if the dot is at the end.
    pub fn shift_symbol(&self) -> Option<(&'grammar Symbol, &'grammar [Symbol])>
        ensures next { IfSome result
            (λ next. slice_get self.now.production.symbols self.now.index ≡ Some next.0.now) }
        ensures rest { IfSome result
            (λ next. next.1.now ≡ drop (self.now.index + 1) self.now.production.symbols) }
        ensures none { IsNone result → self.now.index ≡ length self.now.production.symbols }
    {
        let symbols = self.production.symbols.as_slice();
        if self.index < symbols.len() {
            Some((&symbols[self.index], &symbols[self.index + 1..]))
        } else {
            None
        }
    }
}

// Whether the symbol is the nonterminal.
fn is_nonterminal(symbol: &Symbol, nonterminal: &NonterminalString) -> bool
    ensures { IsTrue result ↔ (symbol.now ≡ Symbol.Nonterminal nonterminal.now) }
{
    match symbol {
        Symbol::Nonterminal(name) => equal(name, nonterminal),
        Symbol::Terminal(_) => false,
    }
}

impl<'grammar, L: fmt::Debug> fmt::Debug for Item<'grammar, L> {
    fn fmt<W: fmt::Write>(&self, f: &mut fmt::Formatter<W>) -> fmt::Result {
        write!(f, "{} =", self.production.nonterminal.text)?;
        for symbol in self.prefix() {
            write!(f, " {symbol:?}")?;
        }
        write!(f, " (*)")?;
        if let Some((symbol, rest)) = self.shift_symbol() {
            write!(f, " {symbol:?}")?;
            for symbol in rest {
                write!(f, " {symbol:?}")?;
            }
        }
        write!(f, " {:?}", self.lookahead)
    }
}
