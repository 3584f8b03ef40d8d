//! The beachheads of a lane table: the states in which lanes begin.
ghost use Rattle.std.specs.Prelude.{◌↔◌, Contains, IfOk, OnOk};
ghost use Rattle.lalrpop_states.specs.declared.lr1_core.state.StateIndex.{StateIndex as State};
ghost use Rattle.lalrpop_state_graph.specs.graphs.StateGraph.{AddsStates};
ghost use Rattle.lalrpop_lanes.specs.lane_tables.LaneTableStates.{AreReached};
ghost use Rattle.lalrpop_lanes.specs.lane_tables.LaneTables.{IsBeachhead};

use super::LaneTable;
use lalrpop_base::collections::Set;
use lalrpop_base::lr1_core::state::StateIndex;
use lalrpop_base::memory::OutOfMemory;
use std::alloc::Global;
use std::collections::BTreeSet;

impl<'grammar> LaneTable<'grammar> {
    /// The states that have a cell and are no state's successor: lanes begin in these.
    /// `OutOfMemory` if an allocation fails.
    pub fn beachhead_states(&self, alloc: Global) -> Result<Set<StateIndex>, OutOfMemory>
        ensures { IfOk result
            (λ states. (state : State) → Contains states.keys state ↔ IsBeachhead self.now state) }
    {
        let reached = self.reached_states(alloc)?;
        let mut states = BTreeSet::new(alloc);
        for ((state, _conflict), _tokens) in self.lookaheads.iter() {
            if !reached.contains(state) {
                states.insert(*state)?;
            }
        }
        Ok(states)
    }

    // The successors of all states.
    fn reached_states(&self, alloc: Global) -> Result<Set<StateIndex>, OutOfMemory>
        ensures { IfOk result (λ reached. AreReached self.now reached.keys) }
    {
        let mut reached = BTreeSet::new(alloc);
        for (_state, successors) in self.successors.iter() {
            add_states(&mut reached, successors)?;
        }
        Ok(reached)
    }
}

// Adds states to a set.
fn add_states(set: &mut Set<StateIndex>, states: &Set<StateIndex>) -> Result<(), OutOfMemory>
    ensures { OnOk result (AddsStates states.now.keys set.old.keys set.new.keys) }
{
    for state in states.iter() {
        set.insert(*state)?;
    }
    Ok(())
}
