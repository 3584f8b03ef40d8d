//! Steps back over edges, from a place with a symbol before the dot.
ghost use Rattle.std.specs.Prelude.{◌≡◌, ◌<◌, ◌-◌, ℕ, Some, OnErr, OnOk, Contains, length};
ghost use Rattle.lalrpop_base.specs.Words.{leads, at_place, Visits};
ghost use Rattle.lalrpop_lanes.specs.lanes.LaneSteps.{Gains, GainsOf, GainsSome, GainsSomeOf, IsAutomaton, IsPair, Nothing, Nowhere, VisitsOf};
ghost use Rattle.lalrpop_lanes.specs.lane_tables.LaneTables.{AreInRange};
ghost use Rattle.lalrpop_construction.specs.states.SamePlaces.{places_in};
ghost use Rattle.lalrpop_state_graph.specs.graphs.StateGraph.{edge, edges};

use super::automaton::Automaton;
use crate::lane_table::table::LaneTable;
use lalrpop_base::collections::walk::Walk;
use lalrpop_base::lr1_core::place::Place;
use lalrpop_base::lr1_core::state::{State, StateIndex};
use lalrpop_base::memory::OutOfMemory;
use lalrpop_base::repr::Symbol;

// Changes nothing. It reads the maps of the source, since only a read shows that their keys are in
// order.
fn read_edge<'grammar, L>(
    states: &[State<'grammar, L>],
    source: StateIndex,
    symbol: &Symbol,
    target: StateIndex,
)
    requires there { source.0 < length states.now }
    requires edge { Contains (edges states.now) (edge source symbol.now target) }
    ensures { leads (places_in states.now source.0) symbol.now ≡ Some target.0 }
{
    let state = &states[source.0];
    let _shifts = state.shifts.len();
    let _gotos = state.gotos.len();
}

// Steps back from a place over the edge from a source. The state of the place becomes a successor
// of the source.
fn step_back<'grammar>(
    place: &Place<'grammar>,
    source: StateIndex,
    table: &mut LaneTable<'grammar>,
    walk: &mut Walk<Place<'grammar>>,
) -> Result<(), OutOfMemory>
    requires { 0 < place.now.item.index }
    ensures gains { OnOk result
        ((k : ℕ) → Gains k Nowhere Nothing (IsPair source.0 place.now.state) table.old table.new) }
    ensures part { OnErr result ((k : ℕ) →
        GainsSome k Nowhere Nothing (IsPair source.0 place.now.state) table.old table.new) }
    ensures visits { OnOk result (Visits
        (λ k. at_place source.0 place.now.item.production (place.now.item.index - 1) ≡ k) walk.old
        walk.new) }
    ensures columns { table.new.conflicts ≡ table.old.conflicts }
    ensures in_range { AreInRange table.old → AreInRange table.new }
{
    table.add_successor(source, StateIndex(place.state))?;
    let back = place.back_in(source.0);
    walk.visit(back.copy(), back)?;
    Ok(())
}

/// Steps back from a place over each edge of the symbol before its dot.
pub(crate) fn unshift<'grammar, L>(
    automaton: &Automaton<'_, 'grammar, L>,
    place: &Place<'grammar>,
    table: &mut LaneTable<'grammar>,
    walk: &mut Walk<Place<'grammar>>,
) -> Result<(), OutOfMemory>
    requires moved { 0 < place.now.item.index }
    requires automaton { IsAutomaton automaton.now }
    ensures gains { OnOk result ((k : ℕ) → GainsOf automaton.now place.now k table.old table.new) }
    ensures part { OnErr result
        ((k : ℕ) → GainsSomeOf automaton.now place.now k table.old table.new) }
    ensures visits { OnOk result (VisitsOf automaton.now place.now walk.old walk.new) }
    ensures columns { table.new.conflicts ≡ table.old.conflicts }
    ensures in_range { AreInRange table.old → AreInRange table.new }
{
    let symbol = place.item.shifted_symbol();
    let state = StateIndex(place.state);
    for source in automaton.state_graph.predecessors(state, symbol) {
        read_edge(automaton.states, source, symbol, state);
        step_back(place, source, table, walk)?;
    }
    Ok(())
}
