//! All LR(0) states of a construction: they get all tokens, and are then resolved.
ghost use Rattle.std.specs.Prelude.{IfOk, OnOk, MatchOption};
ghost use Rattle.lalrpop_base.specs.Words.{rules_of, AreNumbers};
ghost use Rattle.lalrpop_lane_states.specs.lane_states.LaneStates.{AreLaneStates, AreLaneTables, HaveMeetingLanes, HoldAllFrom, IsReadyToConstruct};
ghost use Rattle.lalrpop_construction.specs.states.NumberedStates.{AreNumberedStates};

use super::LaneTableConstruct;
use super::promote::promote_states;
use lalrpop_base::lookahead::token_set::TokenSet;
use lalrpop_base::lr1_core::state::Lr1State;
use lalrpop_base::memory::OutOfMemory;
use lalrpop_base::numbers::Numbers;
use lalrpop_construction::construction::numbered_state::NumberedState;
use lalrpop_construction::construction::states::NumberedStates;
use lalrpop_follow_sets::follow_sets::FollowSets;
use std::alloc::Global;

impl<'grammar> LaneTableConstruct<'grammar> {
    /// The LR(0) states with all tokens, and the same states by number.
    pub(super) fn promoted_states(
        &self,
        alloc: Global,
        numbers: &Numbers<'grammar>,
    ) -> Result<NumberedStates<'grammar, TokenSet>, OutOfMemory>
        requires ready { IsReadyToConstruct self.now }
        requires numbers { AreNumbers (rules_of self.now.grammar.now) numbers.now }
        ensures lanes { IfOk result (λ made. AreLaneStates (rules_of self.now.grammar.now)
            self.now.start made.0.items) }
        ensures full { IfOk result
            (λ made. HoldAllFrom self.now.grammar.now.terminals 0 made.0.items) }
        ensures numbered { IfOk result
            (λ made. AreNumberedStates numbers.now made.0.items made.1.items) }
    {
        let grammar = self.grammar;
        let all = TokenSet::all(alloc, &grammar.terminals)?;
        let (states, list) = self.lr.lr0_states(alloc, numbers)?;
        let states = promote_states(alloc, states, &all)?;
        Ok((states, list))
    }

    /// Resolves the states by rising index, with the lookahead sets that one pass over them finds.
    /// Ends at the first state of which two actions share a token, and returns its index. `None` if
    /// there is no such state.
    pub(super) fn resolve_states(
        &self,
        alloc: Global,
        numbers: &Numbers<'grammar>,
        numbered: &[NumberedState],
        states: &mut Vec<Lr1State<'grammar>>,
    ) -> Result<Option<usize>, OutOfMemory>
        requires ready { IsReadyToConstruct self.now }
        requires lanes { AreLaneStates (rules_of self.now.grammar.now) self.now.start
            states.old.items }
        requires full { HoldAllFrom self.now.grammar.now.terminals 0 states.old.items }
        requires numbers { AreNumbers (rules_of self.now.grammar.now) numbers.now }
        requires numbered { AreNumberedStates numbers.now states.old.items numbered.now }
        ensures lanes { OnOk result
            (AreLaneStates (rules_of self.now.grammar.now) self.now.start states.new.items) }
        ensures numbered { OnOk result
            (AreNumberedStates numbers.now states.new.items numbered.now) }
        ensures resolved { IfOk result (λ first. MatchOption first
            (AreLaneTables (rules_of self.now.grammar.now) self.now.start states.new.items)
            (λ _. HaveMeetingLanes (rules_of self.now.grammar.now) self.now.start
            states.new.items)) }
    {
        let grammar = self.grammar;
        let _terminals = grammar.terminals.all();
        let found = FollowSets::new(alloc, grammar, &self.start, states, numbers, numbered)?;
        let count = states.len();
        for index in 0..count {
            if !self.resolve_state(alloc, states, index, &found, &numbered[index])? {
                return Ok(Some(index));
            }
        }
        Ok(None)
    }
}
