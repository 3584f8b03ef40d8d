//! The lane table of a state.
ghost use Rattle.std.specs.Prelude.{◌≡◌, ◌<◌, length, Contains, IfOk};
ghost use Rattle.lalrpop_base.specs.Words.{AreCoherent, productions, rules_of};
ghost use Rattle.lalrpop_states.specs.declared.lr1_core.state.Action.{Action as TheAction};
ghost use Rattle.lalrpop_lane_states.specs.lane_states.LaneStates.{AreTraced, IsReadyToConstruct};
ghost use Rattle.lalrpop_lanes.specs.lane_tables.LaneTables.{AreInRange, HasRow, IsClosed};
ghost use Rattle.lalrpop_lanes.specs.lanes.LaneTraces.{HaveOwnItems, ReducesOwn};
ghost use Rattle.lalrpop_construction.specs.states.SamePlaces.{places_in};
ghost use Rattle.lalrpop_state_graph.specs.graphs.StateGraph.{edges, IsGraphOf};

use super::LaneTableConstruct;
use lalrpop_base::collections::Set;
use lalrpop_base::lr1_core::state::{Action, Lr1State, StateIndex};
use lalrpop_base::memory::OutOfMemory;
use lalrpop_lanes::lane_table::context_set::ConflictIndex;
use lalrpop_lanes::lane_table::lane::LaneTracer;
use lalrpop_lanes::lane_table::table::LaneTable;
use lalrpop_state_graph::state_graph::StateGraph;
use std::alloc::Global;

impl<'grammar> LaneTableConstruct<'grammar> {
    /// The lane table of the actions of a state, with a column for each action.
    pub(super) fn build_lane_table(
        &self,
        alloc: Global,
        states: &[Lr1State<'grammar>],
        graph: &StateGraph,
        inconsistent_state: StateIndex,
        actions: &Set<Action<'grammar>>,
    ) -> Result<LaneTable<'grammar>, OutOfMemory>
        requires ready { IsReadyToConstruct self.now }
        requires coherent { AreCoherent states.now }
        requires own { HaveOwnItems (productions self.now.grammar.now) states.now }
        requires graph { IsGraphOf (edges states.now) graph.now }
        requires listed { inconsistent_state.0 < length states.now }
        requires reduces { (a : TheAction) →
            Contains actions.now.keys a →
            ReducesOwn (productions self.now.grammar.now) a }
        ensures columns { IfOk result (λ table. table.conflicts ≡ length actions.now.keys) }
        ensures in_range { IfOk result AreInRange }
        ensures traced { IfOk result (AreTraced (rules_of self.now.grammar.now) self.now.start
            (places_in states.now) inconsistent_state.0 actions.now.keys) }
        ensures closed { IfOk result (IsClosed (length states.now)) }
        ensures row { 0 < length actions.now.keys →
            IfOk result (λ table. HasRow table inconsistent_state) }
    {
        let grammar = self.grammar;
        let start = self.start.clone(alloc)?;
        let count = actions.len();
        let first_sets = self.lr.first_sets();
        let mut tracer = LaneTracer::new(alloc, grammar, start, states, first_sets, graph, count);
        let mut place = 0;
        for action in actions.iter() {
            let conflict = ConflictIndex::new(place);
            tracer.start_trace(alloc, inconsistent_state, conflict, action.clone(alloc)?)?;
            place += 1;
        }
        Ok(tracer.into_table())
    }
}
