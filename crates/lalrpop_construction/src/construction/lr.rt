//! The construction of states for a start symbol and the lookahead that follows it.
ghost use Rattle.std.specs.Prelude.{◌≡◌, IfOk, IfErr, MatchResult, map};
ghost use Rattle.lalrpop_base.specs.Words.{FitsTokens, IsWellFormed, rules_of, productions_of, AreNumbered, AreNumbers, items_by};
ghost use Rattle.lalrpop_construction.specs.construction.EarlyStop.{FailsAfterLr0, StopsFor};
ghost use Rattle.lalrpop_construction.specs.construction.Results.{AreTables, AreTablesFor, FailsBy, FailsFor, canonical_of};
ghost use Rattle.lalrpop_base.specs.Words.{item_at_start, AreItemsBy};
ghost use Rattle.lalrpop_construction.specs.closures.EpsilonMoves.{AreItemsAtStart};
ghost use Rattle.lalrpop_construction.specs.states.Lr0.{AreLr0States, HasLr0States};
ghost use Rattle.lalrpop_construction.specs.states.Lr0.{HaveNoNilConflict, ListsNilConflicts};
ghost use Rattle.lalrpop_grammar.specs.declared.repr.NonterminalString.{NonterminalString as Start};
ghost use Rattle.lalrpop_grammar.specs.declared.repr.grammar.Grammar.{Grammar as Rules};
ghost use Rattle.lalrpop_construction.specs.canonical.CanonicalAnswers.{AreCanonicalTables, FailsByConflicts};
ghost use Rattle.lalrpop_construction.specs.states.NumberedStates.{AreNumberedAs};

use super::lookahead_build::LookaheadBuild;
use super::numbered::NumberedKernel;
use super::results::tables_or_conflicts;
use super::states::{NumberedStates, build_states, numbered_states};
use lalrpop_base::first::FirstSets;
use lalrpop_base::lookahead::Lookahead;
use lalrpop_base::lookahead::nil::Nil;
use lalrpop_base::lookahead::token_set::TokenSet;
use lalrpop_base::lr1_core::item::Item;
use lalrpop_base::lr1_core::state::{Lr1Result, LrResult};
use lalrpop_base::memory::OutOfMemory;
use lalrpop_base::numbers::Numbers;
use lalrpop_base::numbers::numbered::Numbered;
use lalrpop_base::repr::NonterminalString;
use lalrpop_base::repr::grammar::Grammar;
use lalrpop_base::sequence::Sequence;
use std::alloc::Global;
use std::marker::Model;

/// A construction of states: a grammar with its FIRST sets and numbers, a start symbol with the
/// lookahead that follows it, and the number of conflicts after which it stops.
#[derive(Drop)]
pub struct Lr<'grammar, L: Lookahead> {
    grammar: &'grammar Grammar,
    start: NonterminalString,
    lookahead: L,
    first_sets: FirstSets<'grammar>,
    numbers: Numbers<'grammar>,
    stop_after: usize,
}

impl<'grammar, L: Lookahead> Model for Lr<'grammar, L> {
    ghost use Rattle.lalrpop_base.specs.Words.{rules_of, productions_of};
    ghost use Rattle.lalrpop_construction.specs.states.Lr0.{AreLr0States, HasLr0States, HaveNoNilConflict, ListsNilConflicts};
    ghost use Rattle.lalrpop_construction.specs.construction.Results.{Settings};

    ghost Value = { Settings L };

    ghost view = { λ l. record {
      construction = record {
        rules = rules_of l.grammar.now;
        start = l.start;
        first = productions_of l.grammar.now l.start;
        lookahead = l.lookahead;
      };
      stop_after = l.stop_after;
    } };

    ghost use Rattle.lalrpop_construction.specs.construction.Ready.{IsReadyToBuild};

    ghost invariant = { λ l. IsReadyToBuild l.grammar.now l.first_sets l.numbers (L.meaning l.lookahead) };
}

impl<'grammar, L: Lookahead> Lr<'grammar, L> {
    /// A construction for a start symbol, which the tokens of `lookahead` follow, without early
    /// stop. `OutOfMemory` if an allocation fails.
    pub fn new(
        alloc: Global,
        grammar: &'grammar Grammar,
        start: NonterminalString,
        lookahead: L,
    ) -> Result<Self, OutOfMemory>
        requires well_formed { IsWellFormed grammar.now }
        requires fits { FitsTokens grammar.now.terminals (L.meaning lookahead) }
        ensures { IfOk result (λ lr. lr ≡ record {
          construction = record {
            rules = rules_of grammar.now;
            start = start;
            first = productions_of grammar.now start;
            lookahead = lookahead;
          };
          stop_after = 0;
        }) }
    {
        let _names = grammar.nonterminals.len();
        let first_sets = FirstSets::new(alloc, grammar)?;
        let numbers = Numbers::new(alloc, grammar, &first_sets)?;
        Ok(Lr {
            grammar,
            start,
            lookahead,
            first_sets,
            numbers,
            stop_after: 0,
        })
    }

    /// The same construction with another lookahead after the start symbol. The FIRST sets and
    /// numbers are reused.
    pub(super) fn with_lookahead<M: Lookahead>(self, lookahead: M) -> Lr<'grammar, M>
        requires { FitsTokens self.construction.rules.terminals (M.meaning lookahead) }
        ensures { result ≡ record {
          construction = record {
            rules = self.entry.construction.rules;
            start = self.entry.construction.start;
            first = self.entry.construction.first;
            lookahead = lookahead;
          };
          stop_after = self.entry.stop_after;
        } }
    {
        Lr {
            grammar: self.grammar,
            start: self.start,
            lookahead,
            first_sets: self.first_sets,
            numbers: self.numbers,
            stop_after: self.stop_after,
        }
    }

    /// Sets after how many conflicts the construction stops; 0 for no early stop.
    pub fn set_stop_after(&mut self, stop_after: usize)
        ensures { self.new ≡ record
            { construction = self.old.construction; stop_after = stop_after } }
    {
        self.stop_after = stop_after;
    }

    /// After how many conflicts the construction stops; 0 for no early stop.
    pub(super) fn stop_after(&self) -> usize
        ensures { result ≡ self.now.stop_after }
    {
        self.stop_after
    }

    /// The grammar whose states are made.
    pub fn grammar(&self) -> &'grammar Grammar
        ensures rules { rules_of result.now ≡ self.now.construction.rules }
        ensures first { productions_of result.now self.now.construction.start ≡
            self.now.construction.first }
        ensures well_formed { IsWellFormed result.now }
    {
        self.grammar
    }

    /// The FIRST sets of the grammar.
    pub fn first_sets(&self) -> &FirstSets<'grammar>
        ensures { result.now ≡ self.now.construction.rules }
    {
        &self.first_sets
    }

    /// The symbols and dotted productions of the grammar by number.
    pub fn numbers(&self) -> &Numbers<'grammar>
        ensures { AreNumbers self.now.construction.rules result.now }
    {
        &self.numbers
    }

    /// The productions of a nonterminal, with the dot at the start and the lookahead.
    /// `OutOfMemory` if an allocation fails.
    pub fn items_at_start(
        &self,
        alloc: Global,
        nonterminal: &NonterminalString,
        lookahead: &L,
    ) -> Result<Vec<Item<'grammar, L>>, OutOfMemory>
        ensures { IfOk result (λ items. AreItemsAtStart self.now.construction.rules nonterminal.now
            lookahead.now items.items) }
    {
        let grammar = self.grammar;
        items_at_start(alloc, grammar, nonterminal, lookahead)
    }

    /// The kernel of the first state: the productions of the start symbol, with the dot at the
    /// start and the lookahead. `OutOfMemory` if an allocation fails.
    pub fn start_kernel(
        &self,
        alloc: Global,
        numbers: &Numbers<'grammar>,
    ) -> Result<NumberedKernel<L>, OutOfMemory>
        requires { AreNumbers self.now.construction.rules numbers.now }
        ensures known { IfOk result (AreNumbered numbers.now.items.items) }
        ensures kernel { IfOk result (λ kernel. items_by numbers.now.items.items kernel ≡ map
            (item_at_start self.now.construction.lookahead) self.now.construction.first) }
        ensures items { IfOk result (λ kernel. AreItemsBy L.meaning self.now.construction.rules
            (items_by numbers.now.items.items kernel)) }
    {
        let grammar = self.grammar;
        let items = numbered_starts(alloc, grammar, numbers, &self.start, &self.lookahead)?;
        Ok(NumberedKernel::new(items))
    }
}

impl<'grammar, L: LookaheadBuild> Lr<'grammar, L> {
    /// The states, or an error with the states and their conflicts. An allocation failure is
    /// `Memory`.
    pub fn build_states(self, alloc: Global) -> LrResult<'grammar, L>
        ensures tables { IfOk result (λ tables. AreTablesFor L.meaning L.begins L.passes
            L.lists_conflicts self.entry.construction tables.items) }
        ensures failure { self.entry.stop_after ≡ 0 →
            IfErr result
            (FailsFor L.meaning L.begins L.passes L.lists_conflicts self.entry.construction) }
        ensures stopped { IfErr result
            (StopsFor L.meaning L.begins L.passes L.lists_conflicts self.entry) }
    {
        let (states, conflicts) = build_states(alloc, &self)?;
        tables_or_conflicts(states, conflicts)
    }
}

impl<'grammar> Lr<'grammar, TokenSet> {
    /// The states with sets of tokens, or an error with the states and their conflicts. An
    /// allocation failure is `Memory`.
    pub fn build_lr1_states(self, alloc: Global) -> Lr1Result<'grammar>
        ensures made { MatchResult result
            (λ tables. AreTables self.entry.construction tables.items)
            (λ error. self.entry.stop_after ≡ 0 → FailsBy self.entry.construction error) }

        // These clauses apply if Eof alone follows the start symbol, as in the canonical method.
        ensures tables { (g : Rules) (start : Start) →
            self.entry.construction ≡ canonical_of g start →
            IfOk result (λ tables. AreCanonicalTables g start tables.items) }
        ensures no_tables { (g : Rules) (start : Start) →
            self.entry.construction ≡ canonical_of g start →
            IfErr result (FailsByConflicts self.entry.stop_after g start) }
    {
        let grammar = self.grammar;
        let _terminals = grammar.terminals.all();
        self.build_states(alloc)
    }
}

impl<'grammar> Lr<'grammar, Nil> {
    /// The states without lookahead, or an error with the states and their conflicts. An
    /// allocation failure is `Memory`.
    pub fn build_lr0_states(self, alloc: Global) -> LrResult<'grammar, Nil>
        ensures states { MatchResult result (λ tables. AreLr0States self.entry.construction.rules
            self.entry.construction.start tables.items) (λ error. self.entry.stop_after ≡ 0 →
            HasLr0States self.entry.construction.rules self.entry.construction.start error) }
        ensures stopped { IfErr result (FailsAfterLr0 self.entry.construction.rules
            self.entry.construction.start self.entry.stop_after) }
        ensures free { IfOk result (λ tables. HaveNoNilConflict tables.items) }
        ensures conflicts { IfErr result ListsNilConflicts }
    {
        let _grammar = self.grammar;
        self.build_states(alloc)
    }

    /// The states without lookahead, and the same states by numbers. The states may have conflicts,
    /// which are not looked for. `OutOfMemory` if an allocation fails.
    pub fn lr0_states(
        &self,
        alloc: Global,
        numbers: &Numbers<'grammar>,
    ) -> Result<NumberedStates<'grammar, Nil>, OutOfMemory>
        requires { AreNumbers self.now.construction.rules numbers.now }
        ensures states { IfOk result (λ made. AreLr0States self.now.construction.rules
            self.now.construction.start made.0.items) }
        ensures numbered { IfOk result
            (λ made. AreNumberedAs numbers.now made.0.items made.1.items) }
    {
        let _own = self.grammar;
        let (states, list) = numbered_states(alloc, self, numbers)?;
        Ok((states, list))
    }
}

// The productions of a nonterminal, with the dot at the start and the lookahead.
fn items_at_start<'grammar, L: Lookahead>(
    alloc: Global,
    grammar: &'grammar Grammar,
    nonterminal: &NonterminalString,
    lookahead: &L,
) -> Result<Vec<Item<'grammar, L>>, OutOfMemory>
    ensures { IfOk result (λ items. items.items ≡ map (item_at_start lookahead.now)
        (productions_of grammar.now nonterminal.now)) }
{
    let mut items = Vec::new(alloc);
    for production in grammar.productions_for(nonterminal) {
        items.push(Item {
            production,
            index: 0,
            lookahead: lookahead.copy(alloc)?,
        })?;
    }
    Ok(items)
}

// The productions of a nonterminal, with the dot at the start and the lookahead, as items by
// number.
fn numbered_starts<'grammar, L: Lookahead>(
    alloc: Global,
    grammar: &'grammar Grammar,
    numbers: &Numbers<'grammar>,
    nonterminal: &NonterminalString,
    lookahead: &L,
) -> Result<Sequence<Numbered<L>>, OutOfMemory>
    requires { AreNumbers (rules_of grammar.now) numbers.now }
    ensures known { IfOk result (AreNumbered numbers.now.items.items) }
    ensures items { IfOk result (λ items. items_by numbers.now.items.items items ≡ map
        (item_at_start lookahead.now) (productions_of grammar.now nonterminal.now)) }
{
    let mut items = Sequence::new(alloc);
    for production in grammar.productions_for(nonterminal) {
        let number = numbers.number_of(&Item::lr0(production, 0)).unwrap();
        let lookahead = lookahead.copy(alloc)?;
        items.push(Numbered { number, lookahead })?;
    }
    Ok(items)
}
