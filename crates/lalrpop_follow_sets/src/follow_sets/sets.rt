//! The result of one pass over states.
ghost use Rattle.std.specs.Prelude.{◌<◌, ◌↔◌, ℕ, length, Contains, IfOk, IsTrue};
ghost use Rattle.lalrpop_base.specs.Words.{AreClosed, AreCoherent, IsWellFormed, has, rules_of, AreNumbers};
ghost use Rattle.lalrpop_follow_sets.specs.follow_sets.FollowNodes.{AreAllReached, AreExpanded, AreItemsOfGrammar, IsPass};
ghost use Rattle.lalrpop_follow_sets.specs.follow_sets.FollowWalks.{AreUnions, FindsLookaheads, HoldsSomeOf, entries_at};
ghost use Rattle.lalrpop_construction.specs.states.SamePlaces.{places_in};
ghost use Rattle.lalrpop_construction.specs.states.NumberedStates.{AreNumberedStates};

use super::includes::includes;
use super::initial_sets::initial_sets;
use super::lookback::{Lookback, empty_lookback};
use super::nodes::nodes_of;
use super::pass::Pass;
use super::start::Start;
use super::tokens::{shifted_tokens, tokens_of};
use super::unions::unions_of;
use lalrpop_base::lookahead::token_set::TokenSet;
use lalrpop_base::lr1_core::state::Lr1State;
use lalrpop_base::memory::OutOfMemory;
use lalrpop_base::numbers::Numbers;
use lalrpop_base::repr::NonterminalString;
use lalrpop_base::repr::grammar::Grammar;
use lalrpop_base::repr::terminals::TerminalSet;
use lalrpop_base::spread::spread;
use lalrpop_construction::construction::numbered_state::NumberedState;
use std::alloc::Global;

/// The follow sets of nonterminals in states, and the reductions to which their tokens go.
/// `FollowSets::new` makes it, and `unions` and `shifted` read it.
#[derive(Drop)]
pub struct FollowSets {
    /// For each node its follow set.
    follow: Vec<TokenSet>,
    /// For each state, pairs of the number of a finished item and a node. The reduction by the item
    /// takes the follow set of the node.
    lookback: Lookback,
    /// For each symbol the set of its token, which is empty for a nonterminal.
    tokens: Vec<TokenSet>,
}

// Finds the follow sets of a pass, and the reductions to which they go.
fn find(alloc: Global, pass: &Pass<'_, '_>) -> Result<FollowSets, OutOfMemory>
    requires { IsPass pass.now }
    ensures { IfOk result (FindsLookaheads (rules_of pass.now.grammar.now) pass.now.name.now
        pass.now.numbers.now (places_in pass.now.states.now) (length pass.now.states.now)) }
{
    let sets = initial_sets(alloc, pass)?;
    let mut lookback = empty_lookback(alloc, pass.numbered.len())?;
    let edges = includes(alloc, pass, &mut lookback)?;
    Ok(FollowSets {
        follow: spread(alloc, sets, &edges)?,
        lookback,
        tokens: tokens_of(alloc, &pass.grammar.terminals, &pass.numbers.symbols)?,
    })
}

impl FollowSets {
    /// Makes the pass over closed states of a grammar, each of which is reached from state 0.
    /// `OutOfMemory` if an allocation fails.
    pub fn new<'grammar>(
        alloc: Global,
        grammar: &'grammar Grammar,
        name: &NonterminalString,
        states: &[Lr1State<'grammar>],
        numbers: &Numbers<'grammar>,
        numbered: &[NumberedState],
    ) -> Result<FollowSets, OutOfMemory>
        requires well_formed { IsWellFormed grammar.now }
        requires numbers { AreNumbers (rules_of grammar.now) numbers.now }
        requires coherent { AreCoherent states.now }
        requires some { 0 < length states.now }
        requires closed { AreClosed (rules_of grammar.now).productions name.now
            (places_in states.now) }
        requires reached { AreAllReached (places_in states.now) (length states.now) }
        requires own { AreItemsOfGrammar (rules_of grammar.now).productions (places_in states.now) }
        requires numbered { AreNumberedStates numbers.now states.now numbered.now }
        ensures { IfOk result (FindsLookaheads (rules_of grammar.now) name.now numbers.now
            (places_in states.now) (length states.now)) }
    {
        FollowSets::of_expanded(alloc, grammar, name, states, numbers, numbered)
    }

    /// Makes the pass over closed states of a grammar, some of which need not be reached. In each
    /// of them the nonterminals after dots are expanded. `OutOfMemory` if an allocation fails.
    pub fn of_expanded<'grammar>(
        alloc: Global,
        grammar: &'grammar Grammar,
        name: &NonterminalString,
        states: &[Lr1State<'grammar>],
        numbers: &Numbers<'grammar>,
        numbered: &[NumberedState],
    ) -> Result<FollowSets, OutOfMemory>
        requires well_formed { IsWellFormed grammar.now }
        requires numbers { AreNumbers (rules_of grammar.now) numbers.now }
        requires coherent { AreCoherent states.now }
        requires some { 0 < length states.now }
        requires closed { AreClosed (rules_of grammar.now).productions name.now
            (places_in states.now) }
        requires expanded { AreExpanded (rules_of grammar.now).productions name.now
            (places_in states.now) (length states.now) }
        requires own { AreItemsOfGrammar (rules_of grammar.now).productions (places_in states.now) }
        requires numbered { AreNumberedStates numbers.now states.now numbered.now }
        ensures { IfOk result (FindsLookaheads (rules_of grammar.now) name.now numbers.now
            (places_in states.now) (length states.now)) }
    {
        let start = Start::new(alloc, numbers, name)?;
        let nodes = nodes_of(alloc, &numbers.symbols, numbered, start.number)?;
        let pass = Pass {
            grammar,
            name,
            states,
            numbers,
            numbered,
            suffixes: &numbers.suffixes,
            start: &start,
            nodes: &nodes,
        };
        find(alloc, &pass)
    }

    /// For each finished item in `reductions`, by number, its lookahead set in the state. The sets
    /// have the order of `reductions`. `OutOfMemory` if an allocation fails.
    pub fn unions(
        &self,
        alloc: Global,
        terminals: &TerminalSet,
        state: usize,
        reductions: &[usize],
    ) -> Result<Vec<TokenSet>, OutOfMemory>
        requires listed { state < length self.now.lookback.items }
        requires within { (k m : ℕ) →
            Contains (entries_at self.now.lookback.items state) (k, m) →
            m < length self.now.follow.items }
        ensures { IfOk result (λ unions. AreUnions self.now.follow.items
            (entries_at self.now.lookback.items state) reductions.now unions.items) }
    {
        unions_of(
            alloc,
            terminals,
            &self.follow,
            reductions,
            &self.lookback[state],
        )
    }

    /// The set of the terminals over which transitions lead. A transition is a pair of the number
    /// of a symbol and a target state. `OutOfMemory` if an allocation fails.
    pub fn shifted(
        &self,
        alloc: Global,
        terminals: &TerminalSet,
        edges: &[(usize, usize)],
    ) -> Result<TokenSet, OutOfMemory>
        requires { (x target : ℕ) →
            Contains edges.now (x, target) →
            x < length self.now.tokens.items }
        ensures { IfOk result (λ set. (bit : ℕ) →
            IsTrue (has set bit) ↔ HoldsSomeOf self.now.tokens.items edges.now bit) }
    {
        shifted_tokens(alloc, terminals, &self.tokens, edges)
    }
}
