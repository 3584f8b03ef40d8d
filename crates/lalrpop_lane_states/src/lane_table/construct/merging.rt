//! States that are merged along the lanes of one state, and copied if their tokens overlap.
ghost use Rattle.std.specs.Prelude.{◌≡◌, ◌↔◌, ◌+◌, ◌<◌, ℕ, true, false, List, length, map, slice_get, Some, Contains, IfOk, IsTrue, OnOk};
ghost use Rattle.std.specs.Map.{keys_of};
ghost use Rattle.lalrpop_base.specs.Words.{AreCoherent, Bits, number_in};
ghost use Rattle.lalrpop_lanes.specs.Words.{AreAmong, AreDisjoint};
ghost use Rattle.lalrpop_states.specs.declared.lr1_core.state.State.{State};
ghost use Rattle.lalrpop_states.specs.declared.lr1_core.state.StateIndex.{StateIndex as Number};
ghost use Rattle.lalrpop_lanes.specs.lane_tables.LaneTables.{HasRow, IsClosed, IsRow};
ghost use Rattle.lalrpop_lane_states.specs.merges.Merges.{Advances, HaveWalked, IsMerging, IsPatchable, IsVisited};
ghost use Rattle.lalrpop_state_graph.specs.graphs.Copies.{AreCopies};
ghost use Rattle.lalrpop_lane_states.specs.lane_states.Resolving.{IsCopied, IsResolveStep};
ghost use Rattle.lalrpop_state_graph.specs.graphs.StateGraph.{edges, IsGraphOf};

use super::copying::Copying;
use super::merge::{Merge, MergeError};
use lalrpop_base::collections::{Map, Set};
use lalrpop_base::lr1_core::state::{Action, StateIndex};
use lalrpop_base::memory::OutOfMemory;
use lalrpop_lanes::lane_table::context_set::ContextSet;
use lalrpop_lanes::lane_table::table::LaneTable;
use lalrpop_lanes::lane_table::table::rows::RowsError;
use std::alloc::Global;

/// Merges states along the lanes of a state, with copies if their tokens overlap. Returns whether
/// no two reductions of the state, or of a copy of it, share a token now.
#[tactic(auto, using(crate::proofs::theory::lane_states::Resolving::copied_none, crate::proofs::theory::lane_states::ResolvedCopies::tried_same))]
pub(super) fn merge_along<'grammar>(
    alloc: Global,
    table: &LaneTable<'grammar>,
    actions: &Set<Action<'grammar>>,
    copying: Copying<'grammar>,
    state: StateIndex,
) -> Result<(Copying<'grammar>, bool), OutOfMemory>
    requires coherent { AreCoherent copying.states.items }
    requires named { length copying.originals.items ≡ length copying.states.items }
    requires graph { IsGraphOf (edges copying.states.items) copying.graph }
    requires closed { IsClosed (length copying.states.items) table.now }
    requires row { HasRow table.now state }
    requires counted { table.now.conflicts ≡ length actions.now.keys }
    requires among { (before : State Bits) →
        slice_get copying.states.items state.0 ≡ Some before → AreAmong actions.now.keys before }
    ensures copied { IfOk result (λ answer. IsCopied copying.entry answer.0) }
    ensures tried { IfOk result (λ answer. IsResolveStep state.0 answer.1 copying.entry.states.items
        answer.0.states.items) }
{
    match table.rows(alloc) {
        Ok(rows) => merge_states(alloc, table, rows, actions, copying, state),
        Err(RowsError::State(_)) => Ok((copying, false)),
        Err(RowsError::Memory) => Err(OutOfMemory),
    }
}

// The originals of originals. `first` has the original of each original.
fn first_originals(
    alloc: Global,
    first: &[usize],
    originals: &[usize],
) -> Result<Vec<usize>, OutOfMemory>
    requires { (n o : ℕ) → slice_get originals.now n ≡ Some o → o < length first.now }
    ensures { IfOk result (λ list. list.items ≡ map (number_in first.now) originals.now) }
{
    let mut list = Vec::with_capacity(alloc, originals.len())?;
    for original in originals {
        list.push(first[*original])?;
    }
    Ok(list)
}

// Merges states, by the rows of the lane table.
fn merge_states<'grammar>(
    alloc: Global,
    table: &LaneTable<'grammar>,
    rows: Map<StateIndex, ContextSet>,
    actions: &Set<Action<'grammar>>,
    copying: Copying<'grammar>,
    state: StateIndex,
) -> Result<(Copying<'grammar>, bool), OutOfMemory>
    requires coherent { AreCoherent copying.states.items }
    requires named { length copying.originals.items ≡ length copying.states.items }
    requires graph { IsGraphOf (edges copying.states.items) copying.graph }
    requires closed { IsClosed (length copying.states.items) table.now }
    requires rows { (state : Number) →
        Contains (keys_of rows.entries) state ↔ HasRow table.now state }
    requires each { (state : Number) (row : List Bits) →
        Contains rows.entries (state, row) →
        IsRow table.now state row × AreDisjoint row }
    requires row { HasRow table.now state }
    requires counted { table.now.conflicts ≡ length actions.now.keys }
    requires among { (before : State Bits) →
        slice_get copying.states.items state.0 ≡ Some before → AreAmong actions.now.keys before }
    ensures copied { IfOk result (λ answer. IsCopied copying.entry answer.0) }
    ensures tried { IfOk result (λ answer. IsResolveStep state.0 answer.1 copying.entry.states.items
        answer.0.states.items) }
{
    let beachheads = table.beachhead_states(alloc)?;
    let count = copying.states.len();
    let left = copying.copies_left;
    let mut graph = copying.graph;
    let mut merge = Merge::new(alloc, table, rows, copying.states, state, left)?;
    let resolved = walk_and_patch(alloc, &mut merge, &beachheads, actions)?;
    merge.update_graph(alloc, &mut graph, count)?;
    let copies_left = merge.copies_left();
    let originals = first_originals(alloc, &copying.originals, merge.originals())?;
    let states = merge.into_states();
    let copying = Copying {
        states,
        graph,
        copies_left,
        originals,
    };
    Ok((copying, resolved))
}

// Walks from the beachheads. If no walk fails, the reductions of the inconsistent state and of its
// copies get their tokens. Returns whether no walk failed.
fn walk_and_patch<'grammar>(
    alloc: Global,
    merge: &mut Merge<'_, 'grammar>,
    beachheads: &Set<StateIndex>,
    actions: &Set<Action<'grammar>>,
) -> Result<bool, OutOfMemory>
    requires ready { IsMerging merge.old }
    requires begun { AreCopies true merge.old.states.items merge.old.originals.items
        merge.old.states.items }
    requires rows { (state : Number) →
        Contains beachheads.now.keys state → HasRow merge.old.table.now state }
    requires patchable { IsPatchable actions.now.keys merge.old }
    ensures copies { OnOk result (AreCopies false merge.old.states.items
        merge.new.originals.items merge.new.states.items) }
    ensures counted { OnOk result (merge.new.copies_left + length merge.new.states.items ≡
        merge.old.copies_left + length merge.old.states.items) }
    ensures visited { IfOk result (λ resolved. IsTrue resolved → (state : Number) →
        Contains beachheads.now.keys state → IsVisited merge.new state.0) }
    ensures tried { IfOk result (λ resolved. IsResolveStep merge.old.inconsistent_state.0 resolved
        merge.old.states.items merge.new.states.items) }
{
    match walk_all(alloc, merge, beachheads) {
        Ok(()) => {
            merge.patch_target_starts(alloc, actions)?;
            Ok(true)
        }
        Err(MergeError::Memory) => Err(OutOfMemory),
        Err(_) => Ok(false),
    }
}

// Walks from each of the states.
fn walk_all<'grammar>(
    alloc: Global,
    merge: &mut Merge<'_, 'grammar>,
    states: &Set<StateIndex>,
) -> Result<(), MergeError>
    requires ready { IsMerging merge.old }
    requires rows { (state : Number) →
        Contains states.now.keys state → HasRow merge.old.table.now state }
    ensures advances { Advances merge.old merge.new }
    ensures walked { OnOk result (HaveWalked states.now.keys merge.old merge.new) }
{
    for state in states.iter() {
        merge.start(alloc, *state)?;
    }
    Ok(())
}
