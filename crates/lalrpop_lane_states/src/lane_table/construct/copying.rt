//! The loop that resolves states, and copies some of them.
ghost use Rattle.std.specs.Prelude.{◌≡◌, ◌<◌, ◌+◌, ℕ, false, List, length, IfOk};
ghost use Rattle.lalrpop_base.specs.Words.{Bits, AreNumbers, rules_of};
ghost use Rattle.lalrpop_states.specs.declared.lr1_core.state.State.{State};
ghost use Rattle.lalrpop_construction.specs.states.NumberedStates.{AreNumberedStates};
ghost use Rattle.lalrpop_lane_states.specs.lane_states.LaneStates.{AreLaneStates, IsReadyToConstruct};
ghost use Rattle.lalrpop_lane_states.specs.lane_states.Lr0Copies.{AreLr0Copies};
ghost use Rattle.lalrpop_lane_states.specs.lane_states.Resolving.{AreResolvedUpTo, HasOverlap, IsResolving, IsResolveStep};

use super::LaneTableConstruct;
use super::actions::actions_of;
use super::merge::own_numbers;
use super::merging::merge_along;
use super::passes::waited;
use super::resolving::attempt_lalr;
use lalrpop_base::lr1_core::state::{Lr1State, StateIndex};
use lalrpop_base::memory::OutOfMemory;
use lalrpop_base::numbers::Numbers;
use lalrpop_construction::construction::numbered_state::NumberedState;
use lalrpop_state_graph::state_graph::StateGraph;
use std::alloc::Global;

/// States while they are resolved, their graph, and the number of copies that may still be made.
#[derive(Drop)]
pub(super) struct Copying<'grammar> {
    pub(super) states: Vec<Lr1State<'grammar>>,
    pub(super) graph: StateGraph,
    pub(super) copies_left: usize,
    /// For each state the number of its original, which is a state that was handed in.
    pub(super) originals: Vec<usize>,
}

impl<'grammar> LaneTableConstruct<'grammar> {
    /// Resolves the states from the index `first` on, by rising index, copies too. Ends at the
    /// first state that cannot be resolved. `numbered` has the states by number.
    pub(super) fn resolve_copied(
        &self,
        alloc: Global,
        numbers: &Numbers<'grammar>,
        numbered: &[NumberedState],
        states: Vec<Lr1State<'grammar>>,
        first: usize,
    ) -> Result<Vec<Lr1State<'grammar>>, OutOfMemory>
        requires ready { IsReadyToConstruct self.now }
        requires numbers { AreNumbers (rules_of self.now.grammar.now) numbers.now }
        requires lanes { AreLaneStates (rules_of self.now.grammar.now) self.now.start states.items }
        requires numbered { AreNumberedStates numbers.now states.items numbered.now }
        ensures copies { IfOk result (λ states. AreLr0Copies (rules_of self.now.grammar.now)
            self.now.start self.now.max_copies states.items) }
        ensures resolved { IfOk result (λ now. (last : ℕ) × AreResolvedUpTo
            (rules_of self.now.grammar.now) self.now.start self.now.max_copies first last
            states.entry.items now.items) }
    {
        let graph = StateGraph::new(alloc, &states)?;
        let originals = own_numbers(alloc, states.len())?;
        let copying = Copying {
            states,
            graph,
            copies_left: self.max_copies,
            originals,
        };
        self.resolve_all(alloc, numbers, numbered, copying, first)
    }

    // Resolves the states from the index `first` on. The lanes of one state are traced, and then a
    // pass resolves those after it, up to the next one of which two actions share a token.
    fn resolve_all(
        &self,
        alloc: Global,
        numbers: &Numbers<'grammar>,
        numbered: &[NumberedState],
        copying: Copying<'grammar>,
        first: usize,
    ) -> Result<Vec<Lr1State<'grammar>>, OutOfMemory>
        requires ready { IsReadyToConstruct self.now }
        requires numbers { AreNumbers (rules_of self.now.grammar.now) numbers.now }
        requires begun { (handed : List (State Bits)) ×
            AreNumberedStates numbers.now handed numbered.now ×
            IsResolving (rules_of self.now.grammar.now) self.now.start self.now.max_copies handed
            copying }
        ensures copies { IfOk result (λ states. AreLr0Copies (rules_of self.now.grammar.now)
            self.now.start self.now.max_copies states.items) }
        ensures resolved { IfOk result (λ now. (last : ℕ) × AreResolvedUpTo
            (rules_of self.now.grammar.now) self.now.start self.now.max_copies first last
            copying.entry.states.items now.items) }
    {
        let mut copying = copying;
        let mut index = first;
        let mut wait = 0;
        while index < copying.states.len() {
            let count = copying.states.len();
            let (next, resolved) = self.resolve_one(alloc, copying, index)?;
            copying = next;
            if !resolved {
                break;
            }
            let left = waited(wait, count, copying.states.len());
            let (after, end, still) = self.resolve_next(
                alloc,
                numbers,
                numbered,
                copying,
                index + 1,
                left,
            )?;
            copying = after;
            index = end;
            wait = still;
        }
        Ok(copying.states)
    }

    // Resolves one state, with copies if two of its actions share a token. Returns whether the
    // state was resolved.
    fn resolve_one(
        &self,
        alloc: Global,
        copying: Copying<'grammar>,
        index: usize,
    ) -> Result<(Copying<'grammar>, bool), OutOfMemory>
        requires ready { IsReadyToConstruct self.now }
        requires resolving { (handed : List (State Bits)) ×
            IsResolving (rules_of self.now.grammar.now) self.now.start self.now.max_copies handed
            copying }
        requires listed { index < length copying.states.items }
        ensures resolving { IfOk result (λ answer. (handed : List (State Bits)) →
            IsResolving (rules_of self.now.grammar.now) self.now.start self.now.max_copies handed
            copying.entry →
            IsResolving (rules_of self.now.grammar.now) self.now.start self.now.max_copies handed
            answer.0) }
        ensures total { IfOk result (λ answer.
            answer.0.copies_left + length answer.0.states.items ≡
            copying.entry.copies_left + length copying.entry.states.items) }
        ensures tried { IfOk result
            (λ answer. IsResolveStep index answer.1 copying.entry.states.items
            answer.0.states.items) }
        ensures overlap { IfOk result (λ answer. answer.1 ≡ false → HasOverlap
            (rules_of self.now.grammar.now) self.now.start self.now.max_copies index) }
    {
        let mut copying = copying;
        let state = &copying.states[index];
        if state.reductions.is_empty() {
            return Ok((copying, true));
        }
        let actions = actions_of(alloc, state, &self.grammar.terminals)?;
        let number = StateIndex(index);
        let table = self.build_lane_table(
            alloc,
            &copying.states,
            &copying.graph,
            number,
            &actions,
        )?;
        if attempt_lalr(alloc, &mut copying.states[index], &table, &actions)? {
            return Ok((copying, true));
        }
        merge_along(alloc, &table, &actions, copying, number)
    }
}
