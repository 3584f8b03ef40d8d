//! FIRST sets. FIRST of a list of symbols is the set of the terminals with which a list that it
//! derives can begin.
mod graph;
mod names;
mod rests;

ghost use Rattle.std.specs.Prelude.{◌≡◌, ◌↔◌, ◌∷◌, [], IfOk, IsTrue};
ghost use Rattle.lalrpop_grammar.specs.grammars.WellFormed.{IsWellFormed, HasKnownTerminals, rules_of};
ghost use Rattle.lalrpop_grammar.specs.first.First.{IsFirstSet, IsFirstSetBefore, IsFirstJoined};
ghost use Rattle.lalrpop_grammar.specs.grammars.Grammar.{IsNullable};
ghost use Rattle.lalrpop_grammar.specs.grammars.Tokens.{FitsTokens};

use self::graph::{Graph, graph_of};
use self::names::Names;
use self::rests::rests_of;
use crate::lookahead::token_set::TokenSet;
use crate::repr::grammar::Grammar;
use crate::repr::{NonterminalString, Symbol};
use crate::spread::spread;
use lalrpop_collections::memory::OutOfMemory;
use std::alloc::Global;
use std::marker::Model;

/// The FIRST sets of the nonterminals of a grammar. Clauses see them as the rules of the grammar.
#[derive(Drop)]
pub struct FirstSets<'grammar> {
    grammar: &'grammar Grammar,
    names: Names,
    sets: Vec<TokenSet>, // for each name the terminals in FIRST
    nullable: Vec<bool>, // for each name whether it is nullable
}

impl<'grammar> Model for FirstSets<'grammar> {
    ghost use Rattle.lalrpop_grammar.specs.grammars.WellFormed.{Rules, rules_of};

    ghost Value = { Rules };

    ghost view = { λ s. rules_of s.grammar.now };

    ghost use Rattle.lalrpop_grammar.specs.first.First.{HoldFirstSets};

    ghost invariant = { λ s. HoldFirstSets s.grammar.now s.names s.sets.items
        s.nullable.items };
}

impl<'grammar> FirstSets<'grammar> {
    /// The FIRST sets of a grammar.
    pub fn new(alloc: Global, grammar: &'grammar Grammar) -> Result<Self, OutOfMemory>
        requires { IsWellFormed grammar.now }
        ensures made { IfOk result (λ sets. sets ≡ rules_of grammar.now) }
    {
        let names = Names::new(alloc, grammar)?;
        let rests = rests_of(alloc, grammar, &names)?;
        let graph = graph_of(alloc, &grammar.terminals, &names, &rests)?;
        let Graph {
            sets,
            edges,
            nullable,
        } = graph;
        Ok(FirstSets {
            grammar,
            names,
            sets: spread(alloc, sets, &edges)?,
            nullable,
        })
    }

    /// FIRST of the symbols, with `Eof` if the symbols are nullable. The set of a name without an
    /// entry is empty.
    pub fn first0(&self, alloc: Global, symbols: &[Symbol]) -> Result<TokenSet, OutOfMemory>
        requires known { HasKnownTerminals self.now.terminals symbols.now }
        ensures first { IfOk result (λ set. IsFirstSet self.now symbols.now set) }
    {
        let terminals = &self.grammar.terminals;
        let mut set = TokenSet::new(alloc, terminals);
        for symbol in symbols {
            match symbol {
                Symbol::Terminal(terminal) => {
                    let _all = terminals.all();
                    let bit = terminals.bit(terminal).unwrap();
                    set.insert_bit(bit)?;
                    return Ok(set);
                }
                Symbol::Nonterminal(name) => {
                    if !self.join(name, &mut set)? {
                        return Ok(set);
                    }
                }
            }
        }
        set.insert_eof(terminals)?;
        Ok(set)
    }

    // Adds the terminals in FIRST of a name to `set`. Returns whether the name is nullable.
    fn join(&self, name: &NonterminalString, set: &mut TokenSet) -> Result<bool, OutOfMemory>
        ensures { IfOk result
            (λ nullable. IsFirstJoined self.now name.now nullable set.old set.new) }
    {
        let number = self.names.number(name);
        set.union_with(&self.sets[number])?;
        Ok(self.nullable[number])
    }

    /// FIRST of the symbols, with the tokens of `follow` instead of `Eof` if the symbols are
    /// nullable.
    pub fn first1(
        &self,
        alloc: Global,
        symbols: &[Symbol],
        follow: &TokenSet,
    ) -> Result<TokenSet, OutOfMemory>
        requires known { HasKnownTerminals self.now.terminals symbols.now }
        ensures first { IfOk result (λ set. IsFirstSetBefore self.now symbols.now follow.now set) }
        ensures fits { IfOk result
            (λ set. FitsTokens self.now.terminals follow.now → FitsTokens self.now.terminals set) }
    {
        let mut set = self.first0(alloc, symbols)?;
        if set.take_eof(&self.grammar.terminals) {
            set.union_with(follow)?;
        }
        Ok(set)
    }

    /// Whether the name derives the empty list, by one look-up. A name without an entry derives
    /// nothing.
    pub fn is_nullable(&self, name: &NonterminalString) -> bool
        ensures nullable { IsTrue result ↔ IsNullable self.now.productions
            (Symbol.Nonterminal name.now ∷ []) }
    {
        self.nullable[self.names.number(name)]
    }

    /// A copy of the sets, for the same grammar.
    pub fn clone(&self, alloc: Global) -> Result<Self, OutOfMemory>
        ensures made { IfOk result (λ copy. copy ≡ self.now) }
    {
        Ok(FirstSets {
            grammar: self.grammar,
            names: Names::new(alloc, self.grammar)?,
            sets: clone_sets(alloc, &self.sets)?,
            nullable: Vec::from_slice(alloc, &self.nullable)?,
        })
    }
}

fn clone_sets(alloc: Global, sets: &[TokenSet]) -> Result<Vec<TokenSet>, OutOfMemory>
    ensures { IfOk result (λ copy. copy.items ≡ sets.now) }
{
    let mut copy = Vec::with_capacity(alloc, sets.len())?;
    for set in sets {
        copy.push(set.clone(alloc)?)?;
    }
    Ok(copy)
}
