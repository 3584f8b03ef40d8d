//! Passes over states of which some were copied.
ghost use Rattle.std.specs.Prelude.{◌≡◌, ◌≤◌, ℕ, false, List, length, IfOk, OnOk};
ghost use Rattle.lalrpop_base.specs.Words.{Bits, AreNumbers, number_in, rules_of};
ghost use Rattle.lalrpop_states.specs.declared.lr1_core.state.State.{State};
ghost use Rattle.lalrpop_construction.specs.states.NumberedStates.{AreNumberedStates};
ghost use Rattle.lalrpop_lane_states.specs.lane_states.FoundLookaheads.{AreFound};
ghost use Rattle.lalrpop_lane_states.specs.lane_states.LaneStates.{IsReadyToConstruct};
ghost use Rattle.lalrpop_lane_states.specs.lane_states.Lr0Copies.{AreLr0Copies};
ghost use Rattle.lalrpop_lane_states.specs.lane_states.Resolving.{AreResolvedBetween, IsResolving};
ghost use Rattle.lalrpop_state_graph.specs.graphs.Copies.{AreCopies};

use super::LaneTableConstruct;
use super::copied_numbers::{copied_numbers, first_is_copied};
use super::copying::Copying;
use lalrpop_base::lr1_core::state::Lr1State;
use lalrpop_base::memory::OutOfMemory;
use lalrpop_base::numbers::Numbers;
use lalrpop_construction::construction::numbered_state::NumberedState;
use lalrpop_follow_sets::follow_sets::FollowSets;
use std::alloc::Global;

// After a pass, one of so many states is resolved before the next one, by the pass or by its lanes.
// So there are at most about as many passes, however many states are merged.
const STATES_FOR_A_PASS: usize = 64;

/// The number of states that are still to be resolved before a pass, after the lanes of one state
/// were traced. `count` is the number of states before, and `now` that after. A state counts if no
/// state was copied for it.
pub(super) fn waited(wait: usize, count: usize, now: usize) -> usize {
    if now != count {
        return wait;
    }
    wait.saturating_sub(1)
}

impl<'grammar> LaneTableConstruct<'grammar> {
    /// Makes a pass if no states are to be resolved before it, which `wait` says. Returns the index
    /// up to which states are resolved, and the number of states before the next pass.
    pub(super) fn resolve_next(
        &self,
        alloc: Global,
        numbers: &Numbers<'grammar>,
        numbered: &[NumberedState],
        copying: Copying<'grammar>,
        first: usize,
        wait: usize,
    ) -> Result<(Copying<'grammar>, usize, usize), OutOfMemory>
        requires ready { IsReadyToConstruct self.now }
        requires numbers { AreNumbers (rules_of self.now.grammar.now) numbers.now }
        requires resolving { (handed : List (State Bits)) ×
            AreNumberedStates numbers.now handed numbered.now ×
            IsResolving (rules_of self.now.grammar.now) self.now.start self.now.max_copies handed
            copying }
        requires within { first ≤ length copying.states.items }
        ensures resolving { IfOk result (λ answer. (handed : List (State Bits)) →
            IsResolving (rules_of self.now.grammar.now) self.now.start self.now.max_copies handed
            copying.entry →
            IsResolving (rules_of self.now.grammar.now) self.now.start self.now.max_copies handed
            answer.0) }
        ensures left { IfOk result
            (λ answer. answer.0.copies_left ≡ copying.entry.copies_left) }
        ensures resolved { IfOk result (λ answer. AreResolvedBetween
            (rules_of self.now.grammar.now) self.now.start first answer.1
            copying.entry.states.items answer.0.states.items) }
    {
        if wait > 0 {
            return Ok((copying, first, wait));
        }
        if first_is_copied(&copying.originals) {
            return Ok((copying, first, 0));
        }
        let (after, end) = self.resolve_apart(alloc, numbers, numbered, copying, first)?;
        let share = after.states.len() / STATES_FOR_A_PASS;
        Ok((after, end, share.saturating_sub(end - first)))
    }

    // Resolves states from the index `first` on, by rising index, with the lookahead sets that one
    // pass over all states finds. Ends at the first state of which two actions share a token, and
    // returns its index. If there is no such state, it returns the number of states.
    fn resolve_apart(
        &self,
        alloc: Global,
        numbers: &Numbers<'grammar>,
        numbered: &[NumberedState],
        copying: Copying<'grammar>,
        first: usize,
    ) -> Result<(Copying<'grammar>, usize), OutOfMemory>
        requires ready { IsReadyToConstruct self.now }
        requires numbers { AreNumbers (rules_of self.now.grammar.now) numbers.now }
        requires resolving { (handed : List (State Bits)) ×
            AreNumberedStates numbers.now handed numbered.now ×
            IsResolving (rules_of self.now.grammar.now) self.now.start self.now.max_copies handed
            copying }
        requires alone { (n : ℕ) → number_in copying.originals.items n ≡ 0 → n ≡ 0 }
        requires within { first ≤ length copying.states.items }
        ensures resolving { IfOk result (λ answer. (handed : List (State Bits)) →
            IsResolving (rules_of self.now.grammar.now) self.now.start self.now.max_copies handed
            copying.entry →
            IsResolving (rules_of self.now.grammar.now) self.now.start self.now.max_copies handed
            answer.0) }
        ensures left { IfOk result
            (λ answer. answer.0.copies_left ≡ copying.entry.copies_left) }
        ensures resolved { IfOk result (λ answer. AreResolvedBetween
            (rules_of self.now.grammar.now) self.now.start first answer.1
            copying.entry.states.items answer.0.states.items) }
    {
        let mut copying = copying;
        let list = copied_numbers(
            alloc,
            &numbers.symbols,
            numbered,
            &copying.originals,
            &copying.states,
        )?;
        let found = FollowSets::of_expanded(
            alloc,
            self.grammar,
            &self.start,
            &copying.states,
            numbers,
            &list,
        )?;
        let end = self.resolve_found(alloc, &mut copying.states, first, &found, &list)?;
        Ok((copying, end))
    }

    // Resolves states from the index `first` on, with the sets that a pass found for them. Ends at
    // the first state of which two actions share a token, and returns its index.
    fn resolve_found(
        &self,
        alloc: Global,
        states: &mut Vec<Lr1State<'grammar>>,
        first: usize,
        found: &FollowSets,
        list: &[NumberedState],
    ) -> Result<usize, OutOfMemory>
        requires copies { AreLr0Copies (rules_of self.now.grammar.now) self.now.start
            self.now.max_copies states.old.items }
        requires found { AreFound (rules_of self.now.grammar.now) self.now.start states.old.items
            found.now list.now }
        requires within { first ≤ length states.old.items }
        ensures copies { OnOk result ((handed : List (State Bits)) (originals : List ℕ) →
            AreCopies false handed originals states.old.items →
            AreCopies false handed originals states.new.items) }
        ensures resolved { IfOk result (λ end. AreResolvedBetween
            (rules_of self.now.grammar.now) self.now.start first end states.old.items
            states.new.items) }
    {
        let mut index = first;
        while index < states.len() {
            if !self.resolve_state(alloc, states, index, found, &list[index])? {
                return Ok(index);
            }
            index += 1;
        }
        Ok(index)
    }
}
