//! The order of the transitions of states.
ghost use Rattle.lalrpop_tables.specs.collapse.Collapsed.{IsOrderedState, AreOrdered};

use lalrpop_base::lr1_core::state::Lr1State;

// Changes nothing. Since both maps are read here, the proof knows that their keys ascend.
fn read_order_of(state: &Lr1State)
    ensures { IsOrderedState state.now }
{
    let _shifts = state.shifts.len();
    let _gotos = state.gotos.len();
}

/// Changes nothing. Since the maps of each state are read, the proof knows that their keys ascend.
pub(super) fn read_order(states: &[Lr1State])
    ensures { AreOrdered states.now }
{
    for state in states {
        read_order_of(state);
    }
}
