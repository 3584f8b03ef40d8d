//! The set of each state, and the tokens of each set.
ghost use Rattle.std.specs.Prelude.{◌≡◌, Some, length, map, IfOk, OnOk, OnErr, MatchBool};
ghost use Rattle.lalrpop_states.specs.declared.lr1_core.state.StateIndex.{StateIndex as State};
ghost use Rattle.lalrpop_lanes.specs.Words.{MeetInUnion};
ghost use Rattle.lalrpop_lane_states.specs.merges.StateSets.{AddsColumns, AreJoined, HasSet, IsMade, OwnSets, context_of, replaced_entry, set_of};

use crate::lane_table::construct::state_set::StateSet;
use lalrpop_base::collections::Map;
use lalrpop_base::lr1_core::state::StateIndex;
use lalrpop_base::memory::OutOfMemory;
use lalrpop_lanes::lane_table::context_set::{ContextSet, OverlappingLookahead};
use std::alloc::Global;
use std::collections::BTreeMap;

/// The set of each state, and the tokens of each set.
#[derive(Drop)]
pub(super) struct ContextSets {
    state_sets: Map<StateIndex, StateSet>,
    contexts: Vec<ContextSet>,
}

impl ContextSets {
    /// A set for each state with a row. The set has the tokens of the row.
    pub(super) fn new(
        alloc: Global,
        rows: Map<StateIndex, ContextSet>,
    ) -> Result<ContextSets, OutOfMemory>
        ensures { IfOk result (OwnSets rows.entries) }
    {
        let mut sets = ContextSets {
            state_sets: BTreeMap::new(alloc),
            contexts: Vec::new(alloc),
        };
        for (state, row) in rows {
            sets.new_state(state, row)?;
        }
        Ok(sets)
    }

    // The set of a state.
    fn state_set(&self, state: StateIndex) -> StateSet
        requires { HasSet self.now state }
        ensures { set_of self.now state ≡ Some result }
    {
        match self.state_sets.get(&state) {
            Some(set) => *set,
            None => unreachable!(),
        }
    }

    /// The tokens of the set of a state.
    pub(super) fn context_set(&self, state: StateIndex) -> &ContextSet
        requires { HasSet self.now state }
        ensures { result.now ≡ context_of self.now state }
    {
        let set = self.state_set(state);
        &self.contexts[set.index()]
    }

    /// Joins the sets of two states, if their tokens allow it, and returns whether the sets are
    /// one.
    pub(super) fn union(
        &mut self,
        alloc: Global,
        source: StateIndex,
        target: StateIndex,
    ) -> Result<bool, OutOfMemory>
        requires source { HasSet self.old source }
        requires target { HasSet self.old target }
        requires counted { length (context_of self.old source) ≡ length
            (context_of self.old target) }
        ensures joined { IfOk result (λ joined. MatchBool joined
            (AreJoined source target self.old self.new) (MeetInUnion (context_of self.old source)
            (context_of self.old target) × (self.new ≡ self.old))) }
        ensures err { OnErr result (self.new ≡ self.old) }
    {
        let first = self.state_set(source);
        let second = self.state_set(target);
        if first == second {
            return Ok(true);
        }
        let union = match ContextSet::union(
            alloc,
            &self.contexts[first.index()],
            &self.contexts[second.index()],
        ) {
            Ok(union) => union,
            Err(OverlappingLookahead::Overlapping) => return Ok(false),
            Err(OverlappingLookahead::Memory) => return Err(OutOfMemory),
        };
        self.contexts[first.index()] = union;
        replace_sets(&mut self.state_sets, second, first);
        Ok(true)
    }

    /// Makes a set of one state, with these tokens.
    pub(super) fn new_state(
        &mut self,
        state: StateIndex,
        context_set: ContextSet,
    ) -> Result<(), OutOfMemory>
        ensures adds { AddsColumns context_set self.old self.new }
        ensures made { OnOk result (IsMade state context_set self.old self.new) }
        ensures err { OnErr result ((n : State) → set_of self.new n ≡ set_of self.old n) }
    {
        let set = StateSet::new(self.contexts.len());
        self.contexts.push(context_set)?;
        self.state_sets.insert(state, set)?;
        Ok(())
    }
}

// Moves the states of one set into another.
fn replace_sets(sets: &mut Map<StateIndex, StateSet>, old: StateSet, new: StateSet)
    ensures { sets.new.entries ≡ map (replaced_entry old new) sets.old.entries }
{
    sets.retain(|_, set| {
        if *set == old {
            *set = new;
        }
        true
    });
}
