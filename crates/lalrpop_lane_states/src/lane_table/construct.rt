//! The construction of lane tables.
mod actions;
mod copied_numbers;
mod copying;
mod lookaheads;
pub mod merge;
mod merging;
mod passes;
mod promote;
mod resolving;
pub mod state_set;
mod states;
mod tracing;

ghost use Rattle.std.specs.Prelude.{◌≡◌, IfOk, IfErr, IfSome, IsSomeAnd, IsTrue, MatchBool, MatchOption, MatchResult};
ghost use Rattle.lalrpop_base.specs.Words.{IsLALR1, IsOnNoRightSide, IsWellFormed, productions, rules_of, AreAllConflictFree};
ghost use Rattle.lalrpop_states.specs.conflicts.Failures.{TellsNotLALR1};
ghost use Rattle.lalrpop_lane_states.specs.lane_states.LaneStates.{AreLalrLaneTables, IsReadyToConstruct};
ghost use Rattle.lalrpop_lane_states.specs.lane_states.Lr0Copies.{AreCopiedTables, AreLr0Copies, FailsByCopies, HaveCopiedConflict};

use lalrpop_base::lookahead::nil::Nil;
use lalrpop_base::lr1_core::all_conflicts::{conflicts_of, have_no_conflict};
use lalrpop_base::lr1_core::state::{BuildError, Lr1Result, Lr1State, TableConstructionError};
use lalrpop_base::memory::OutOfMemory;
use lalrpop_base::repr::NonterminalString;
use lalrpop_base::repr::grammar::Grammar;
use lalrpop_construction::construction::lr::Lr;
use std::alloc::Global;

/// A construction of lane tables for a start symbol of a grammar.
#[derive(Drop)]
pub struct LaneTableConstruct<'grammar> {
    /// The grammar whose states are made.
    pub grammar: &'grammar Grammar,
    /// The construction of LR(0) states.
    pub lr: Lr<'grammar, Nil>,
    /// The start symbol, which `lr` has too.
    pub start: NonterminalString,
    max_copies: usize,
}

impl<'grammar> LaneTableConstruct<'grammar> {
    /// A construction that copies states at most `max_copies` times in all. `OutOfMemory` if an
    /// allocation fails.
    #[tactic(auto, using(lalrpop_construction::proofs::theory::construction::Lookaheads::nothing_fits))]
    pub fn new(
        alloc: Global,
        grammar: &'grammar Grammar,
        start: NonterminalString,
        max_copies: usize,
    ) -> Result<Self, OutOfMemory>
        requires well_formed { IsWellFormed grammar.now }
        ensures ready { IfOk result IsReadyToConstruct }
        ensures over { IfOk result (λ construct. (construct.grammar.now ≡ grammar.now) ×
            (construct.start ≡ start) × (construct.max_copies ≡ max_copies)) }
    {
        let lr = Lr::new(alloc, grammar, start.clone(alloc)?, Nil)?;
        Ok(LaneTableConstruct {
            grammar,
            lr,
            start,
            max_copies,
        })
    }

    /// The LR(0) states with the tokens of their lanes, and copies of states if two actions share a
    /// token. If there are no tables, the error has the states as they are then, with their
    /// conflicts. An allocation failure is an error, too.
    pub fn construct(self, alloc: Global) -> Lr1Result<'grammar>
        requires ready { IsReadyToConstruct self }
        ensures tables { IfOk result
            (λ tables. AreCopiedTables (rules_of self.entry.grammar.now) self.entry.start
            self.entry.max_copies tables.items) }
        ensures failure { IfErr result (FailsByCopies (rules_of self.entry.grammar.now)
            self.entry.start self.entry.max_copies) }
        ensures lalr { IsOnNoRightSide (productions self.entry.grammar.now) self.entry.start →
            MatchResult result
            (λ tables. IsLALR1 (productions self.entry.grammar.now) self.entry.start →
            AreLalrLaneTables (rules_of self.entry.grammar.now) self.entry.start tables.items)
            (TellsNotLALR1 (productions self.entry.grammar.now) self.entry.start) }
    {
        let grammar = self.grammar;
        let (states, at_once) = self.resolved(alloc)?;
        if at_once {
            return Ok(states);
        }
        let conflicts = conflicts_of(alloc, &states, &grammar.terminals)?;
        if conflicts.is_empty() {
            return Ok(states);
        }
        Err(BuildError::Conflicts(TableConstructionError { states, conflicts }))
    }

    /// Makes the same tables as `construct`. If there are none, it returns `None` and lists no
    /// conflict. It also returns whether one pass over the states made the tables. `OutOfMemory` if
    /// an allocation fails.
    pub fn construct_or_none(
        &self,
        alloc: Global,
    ) -> Result<Option<(Vec<Lr1State<'grammar>>, bool)>, OutOfMemory>
        requires ready { IsReadyToConstruct self.now }
        ensures tables { IfOk result (λ answer. MatchOption answer
            (HaveCopiedConflict (rules_of self.now.grammar.now) self.now.start
            self.now.max_copies)
            (λ made. AreCopiedTables (rules_of self.now.grammar.now) self.now.start
            self.now.max_copies made.0.items)) }
        ensures at_once { IfOk result (λ answer. IfSome answer (λ made. IsTrue made.1 →
            IsOnNoRightSide (productions self.now.grammar.now) self.now.start →
            AreLalrLaneTables (rules_of self.now.grammar.now) self.now.start made.0.items)) }
        ensures lalr { IsOnNoRightSide (productions self.now.grammar.now) self.now.start →
            IsLALR1 (productions self.now.grammar.now) self.now.start →
            IfOk result (λ answer. IsSomeAnd answer
            (λ made. AreLalrLaneTables (rules_of self.now.grammar.now) self.now.start
            made.0.items)) }
    {
        let grammar = self.grammar;
        let (states, at_once) = self.resolved(alloc)?;
        if at_once {
            return Ok(Some((states, true)));
        }
        if !have_no_conflict(alloc, &states, &grammar.terminals)? {
            return Ok(None);
        }
        Ok(Some((states, false)))
    }

    // Makes the states, and resolves them up to the first one that cannot be resolved. Also returns
    // whether one pass over the states resolved all of them.
    fn resolved(&self, alloc: Global) -> Result<(Vec<Lr1State<'grammar>>, bool), OutOfMemory>
        requires ready { IsReadyToConstruct self.now }
        ensures copies { IfOk result (λ made. AreLr0Copies (rules_of self.now.grammar.now)
            self.now.start self.now.max_copies made.0.items) }
        ensures free { IfOk result (λ made. IsTrue made.1 →
            AreAllConflictFree (rules_of self.now.grammar.now).terminals made.0.items) }
        ensures lalr { IsOnNoRightSide (productions self.now.grammar.now) self.now.start →
            IfOk result (λ made. MatchBool made.1
            (AreLalrLaneTables (rules_of self.now.grammar.now) self.now.start made.0.items)
            (¬ IsLALR1 (productions self.now.grammar.now) self.now.start)) }
    {
        let grammar = self.grammar;
        let _terminals = grammar.terminals.all();
        let numbers = self.lr.numbers();
        let (mut states, numbered) = self.promoted_states(alloc, numbers)?;
        let Some(first) = self.resolve_states(alloc, numbers, &numbered, &mut states)? else {
            return Ok((states, true));
        };
        let states = self.resolve_copied(alloc, numbers, &numbered, states, first)?;
        Ok((states, false))
    }
}
