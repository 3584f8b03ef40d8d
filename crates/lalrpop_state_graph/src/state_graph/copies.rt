//! The update of a graph after states were copied.
ghost use Rattle.std.specs.Prelude.{◌≡◌, ◌≤◌, [], ◌∷◌, false, length, take, OnOk};
ghost use Rattle.std.specs.Map.{keys_of};
ghost use Rattle.lalrpop_base.specs.Words.{AllDiffer, number_in, retargeted_all};
ghost use Rattle.lalrpop_state_graph.specs.graphs.GraphCopies.{FollowsCopies, FollowsEdges, FollowsInTurn};
ghost use Rattle.lalrpop_state_graph.specs.graphs.StateGraph.{edge, edges_of};

use super::StateGraph;
use super::lists::{clear_at, push_at};
use super::origins::remove_origin;
use crate::renumber::renumbered;
use lalrpop_base::lr1_core::state::{Lr1State, State, StateIndex};
use lalrpop_base::memory::OutOfMemory;
use lalrpop_base::repr::Symbol;
use std::alloc::Global;
use std::collections::BTreeMap;

// Whether a transition leads to a copy. `originals` has the number of the original of each state.
// A state that is no copy is its own original.
fn lead_to_copies<K: Ord>(targets: &BTreeMap<K, StateIndex>, originals: &[usize]) -> bool
    ensures none { result ≡ false → retargeted_all (number_in originals.now) targets.now.entries ≡
        targets.now.entries }
    ensures differ { AllDiffer (keys_of targets.now.entries) }
{
    for (_key, target) in targets.iter() {
        let original = renumbered(originals, *target);
        if original.0 != target.0 {
            return true;
        }
    }
    false
}

// Whether a shift or a goto of the state leads to a copy.
fn leads_to_copies<L>(state: &State<'_, L>, originals: &[usize]) -> bool
    ensures shifts { result ≡ false →
        retargeted_all (number_in originals.now) state.now.shifts.entries ≡
        state.now.shifts.entries }
    ensures gotos { result ≡ false →
        retargeted_all (number_in originals.now) state.now.gotos.entries ≡
        state.now.gotos.entries }
    ensures differ { AllDiffer (keys_of state.now.shifts.entries) ×
        AllDiffer (keys_of state.now.gotos.entries) }
{
    let shifts = lead_to_copies(&state.shifts, originals);
    let gotos = lead_to_copies(&state.gotos, originals);
    shifts || gotos
}

impl StateGraph {
    /// Updates the graph after states were copied. `states` has the old states first, `count` in
    /// number, and then the copies. Edges of old states may lead to copies now. `originals` has the
    /// number of the original of each state. `OutOfMemory` if an allocation fails.
    pub fn follow_copies(
        &mut self,
        alloc: Global,
        states: &[Lr1State<'_>],
        originals: &[usize],
        count: usize,
    ) -> Result<(), OutOfMemory>
        requires { count ≤ length states.now }
        ensures { OnOk result (FollowsCopies count originals.now states.now states.now self.old
            self.new) }
    {
        self.follow_states(alloc, states, originals, count)?;
        self.add_states(alloc, states, count)?;
        Ok(())
    }

    // Updates the edges of the first `count` states.
    fn follow_states(
        &mut self,
        alloc: Global,
        states: &[Lr1State<'_>],
        originals: &[usize],
        count: usize,
    ) -> Result<(), OutOfMemory>
        requires { count ≤ length states.now }
        ensures { OnOk result (FollowsCopies count originals.now states.now
            (take count states.now) self.old self.new) }
    {
        for number in 0..count {
            self.follow_state(alloc, StateIndex(number), &states[number], originals)?;
        }
        Ok(())
    }

    // Updates the edges of a state. If none leads to a copy, nothing changes.
    fn follow_state<L>(
        &mut self,
        alloc: Global,
        source: StateIndex,
        state: &State<'_, L>,
        originals: &[usize],
    ) -> Result<(), OutOfMemory>
        ensures { OnOk result (FollowsEdges originals.now source (edges_of source state.now)
            self.old self.new) }
    {
        if !leads_to_copies(state, originals) {
            return Ok(());
        }
        clear_at(&mut self.successors, source.0);
        self.follow_edges(alloc, source, state, originals)
    }

    // Updates the edges of a state whose list of targets was emptied, in order.
    fn follow_edges<L>(
        &mut self,
        alloc: Global,
        source: StateIndex,
        state: &State<'_, L>,
        originals: &[usize],
    ) -> Result<(), OutOfMemory>
        ensures { OnOk result (FollowsInTurn originals.now (edges_of source state.now) self.old
            self.new) }
    {
        for (symbol, target) in state.edges() {
            self.follow_edge(alloc, source, symbol.to_symbol(alloc)?, target, originals)?;
        }
        Ok(())
    }

    // Adds the target of an edge after the others of its source. If the target is a copy, the edge
    // is moved from the edges to the original to those to the copy.
    fn follow_edge(
        &mut self,
        alloc: Global,
        source: StateIndex,
        symbol: Symbol,
        target: StateIndex,
        originals: &[usize],
    ) -> Result<(), OutOfMemory>
        ensures { OnOk result (FollowsInTurn originals.now (edge source symbol target ∷ [])
            self.old self.new) }
    {
        push_at(alloc, &mut self.successors, source.0, target)?;
        let original = renumbered(originals, target);
        if original.0 == target.0 {
            return Ok(());
        }
        remove_origin(&mut self.predecessors, original.0, &symbol, source);
        push_at(alloc, &mut self.predecessors, target.0, (symbol, source))?;
        Ok(())
    }
}
