//! The walk along the successors of a lane table.
ghost use Rattle.std.specs.Prelude.{◌≡◌, ◌≤◌, ◌<◌, ◌++◌, length, reverse, slice_get, Some, IfOk, IfErr, IsFalse, IsTrue, OnOk};
ghost use Rattle.std.specs.BTreeSet.{IsOrdered};
ghost use Rattle.lalrpop_lanes.specs.lane_tables.LaneTables.{ColumnsOverlap};
ghost use Rattle.lalrpop_lane_states.specs.merges.MergeWalks.{ComesTo, joins_to, most_joins};
ghost use Rattle.lalrpop_lane_states.specs.merges.Merges.{Advances, AreUnited, CannotJoin, HasWalked, HaveNoNewMarks, IsApartIfNone, IsJoinedCopy, IsJoinedIfAny, IsCopyLimit, IsLinked, IsMergeError, IsMerging, IsRefusedJoin, HasOriginalRow, KeepsStates, OriginalLeadsTo, unvisited};
ghost use Rattle.lalrpop_state_graph.specs.graphs.Copies.{index as index_of};
ghost use Rattle.lalrpop_state_graph.specs.graphs.StateGraph.{state_cmp};

use super::{Merge, MergeError};
use lalrpop_base::collections::Set;
use lalrpop_base::lr1_core::state::StateIndex;
use lalrpop_base::memory::OutOfMemory;
use std::alloc::Global;

/// A join that a walk still has to make: of a state to a successor of the state's original.
#[derive(Drop)]
pub struct Join {
    pub state: StateIndex,
    pub successor: StateIndex,
}

// Appends the joins of a state to successors to those that are pending. The join to the first
// successor comes last, so it is made first.
fn push_joins(
    state: StateIndex,
    successors: &Set<StateIndex>,
    pending: &mut Vec<Join>,
) -> Result<(), OutOfMemory>
    ensures pushed { OnOk result (pending.new.items ≡
        pending.old.items ++ reverse (joins_to state successors.now.keys)) }
    ensures ordered { IsOrdered state_cmp successors.now }
{
    for successor in successors.iter().rev() {
        pending.push(Join {
            state,
            successor: *successor,
        })?;
    }
    Ok(())
}

impl<'table, 'grammar> Merge<'table, 'grammar> {
    // The original of a state, which is the state itself if it is no copy.
    fn original_index(&self, state: StateIndex) -> StateIndex
        requires { state.0 < length self.now.originals.items }
        ensures { slice_get self.now.originals.items state.0 ≡ Some result.0 }
    {
        StateIndex(self.originals[state.0])
    }

    // Joins the sets of two states, if their tokens allow it, and returns whether the sets are one.
    fn union(
        &mut self,
        alloc: Global,
        source: StateIndex,
        target: StateIndex,
    ) -> Result<bool, OutOfMemory>
        requires ready { IsMerging self.old }
        requires source { HasOriginalRow self.old source }
        requires target { HasOriginalRow self.old target }
        ensures advances { Advances self.old self.new }
        ensures marks { HaveNoNewMarks self.old self.new }
        ensures united { IfOk result (λ united. AreUnited united source target self.old self.new) }
        ensures same { self.new ≡ record self.old { context_sets = self.new.context_sets } }
    {
        self.context_sets.union(alloc, source, target)
    }

    // Joins a state to the state with an index, if this is a copy of the successor and their tokens
    // allow it. Returns whether they were joined.
    fn joins_copy(
        &mut self,
        alloc: Global,
        state: StateIndex,
        successor: StateIndex,
        index: usize,
    ) -> Result<bool, OutOfMemory>
        requires ready { IsMerging self.old }
        requires walked { HasOriginalRow self.old state }
        requires leads { OriginalLeadsTo self.old state successor }
        requires there { index < length self.old.originals.items }
        ensures advances { Advances self.old self.new }
        ensures marks { HaveNoNewMarks self.old self.new }
        ensures joined { IfOk result
            (λ joined. IsTrue joined → IsJoinedCopy state successor (index_of index) self.new) }
        ensures apart { IfOk result (λ joined. IsFalse joined →
            CannotJoin self.old state successor index × (self.new ≡ self.old)) }
        ensures same { self.new ≡ record self.old { context_sets = self.new.context_sets } }
    {
        if index == successor.0 || self.originals[index] != successor.0 {
            return Ok(false);
        }
        self.union(alloc, state, StateIndex(index))
    }

    // Joins a state to the first copy of its successor whose tokens allow it. `None` if there is no
    // such copy.
    fn existing_copy(
        &mut self,
        alloc: Global,
        state: StateIndex,
        successor: StateIndex,
    ) -> Result<Option<StateIndex>, OutOfMemory>
        requires ready { IsMerging self.old }
        requires walked { HasOriginalRow self.old state }
        requires leads { OriginalLeadsTo self.old state successor }
        ensures advances { Advances self.old self.new }
        ensures marks { HaveNoNewMarks self.old self.new }
        ensures joined { IfOk result (IsJoinedIfAny state successor self.new) }
        ensures apart { IfOk result (IsApartIfNone state successor self.old self.new) }
        ensures same { self.new ≡ record self.old { context_sets = self.new.context_sets } }
    {
        let first = self.first_copy;
        let count = self.originals.len();
        for index in first..count {
            if self.joins_copy(alloc, state, successor, index)? {
                return Ok(Some(StateIndex(index)));
            }
        }
        Ok(None)
    }

    // Joins a state to a new copy of its successor. `Apart` if their tokens do not allow it.
    fn new_copy(
        &mut self,
        alloc: Global,
        state: StateIndex,
        successor: StateIndex,
    ) -> Result<StateIndex, MergeError>
        requires ready { IsMerging self.old }
        requires walked { HasOriginalRow self.old state }
        requires leads { OriginalLeadsTo self.old state successor }
        requires overlap { ColumnsOverlap self.old.table.now }
        ensures advances { Advances self.old self.new }
        ensures marks { HaveNoNewMarks self.old self.new }
        ensures joined { IfOk result (λ copy. IsJoinedCopy state successor copy self.new) }
        ensures fewer { OnOk result (unvisited self.new ≤ unvisited self.old) }
        ensures error { IfErr result (IsMergeError self.new) }
        ensures limit { IfErr result (IsCopyLimit self.old) }
        ensures kept { KeepsStates self.old self.new }
    {
        let copy = self.copy_state(alloc, successor)?;
        if !self.union(alloc, state, copy)? {
            return Err(MergeError::Apart(self.original_index(state), successor));
        }
        Ok(copy)
    }

    // Joins a state to a copy of its successor. A new copy is made only if no other can be joined.
    fn some_copy(
        &mut self,
        alloc: Global,
        state: StateIndex,
        successor: StateIndex,
    ) -> Result<StateIndex, MergeError>
        requires ready { IsMerging self.old }
        requires walked { HasOriginalRow self.old state }
        requires leads { OriginalLeadsTo self.old state successor }
        requires overlap { ColumnsOverlap self.old.table.now }
        ensures advances { Advances self.old self.new }
        ensures marks { HaveNoNewMarks self.old self.new }
        ensures joined { IfOk result (λ copy. IsJoinedCopy state successor copy self.new) }
        ensures fewer { OnOk result (unvisited self.new ≤ unvisited self.old) }
        ensures error { IfErr result (IsMergeError self.new) }
        ensures limit { IfErr result (IsCopyLimit self.old) }
        ensures kept { KeepsStates self.old self.new }
        ensures refused { IfErr result (IsRefusedJoin self.old state successor) }
    {
        match self.existing_copy(alloc, state, successor)? {
            Some(copy) => Ok(copy),
            None => self.new_copy(alloc, state, successor),
        }
    }

    // Joins a state to its successor, if their tokens allow it. Else the state is joined to a copy
    // of the successor, and its edges to the successor lead to this copy.
    fn join_successor(
        &mut self,
        alloc: Global,
        state: StateIndex,
        successor: StateIndex,
    ) -> Result<StateIndex, MergeError>
        requires ready { IsMerging self.old }
        requires walked { HasOriginalRow self.old state }
        requires leads { OriginalLeadsTo self.old state successor }
        ensures advances { Advances self.old self.new }
        ensures marks { HaveNoNewMarks self.old self.new }
        ensures joined { IfOk result (λ copy. IsJoinedCopy state successor copy self.new) }
        ensures fewer { OnOk result (unvisited self.new ≤ unvisited self.old) }
        ensures error { IfErr result (IsMergeError self.new) }
        ensures limit { IfErr result (IsCopyLimit self.old) }
        ensures linked { IfOk result (λ copy. IsLinked state.0 successor.0 copy.0
            self.old.states.items self.new.states.items) }
        ensures refused { IfErr result (IsRefusedJoin self.old state successor) }
    {
        if self.union(alloc, state, successor)? {
            return Ok(successor);
        }
        let copy = self.some_copy(alloc, state, successor)?;
        self.patch_links(state, successor, copy);
        Ok(copy)
    }

    // Comes to a state. Unless the state was visited before, it is marked as visited, and its joins
    // are appended to those that are pending.
    fn come_to(&mut self, state: StateIndex, pending: &mut Vec<Join>) -> Result<(), OutOfMemory>
        requires ready { IsMerging self.old }
        requires walked { HasOriginalRow self.old state }
        ensures advances { Advances self.old self.new }
        ensures came { OnOk result
            (ComesTo state self.old self.new pending.old.items pending.new.items) }
        ensures fewer { unvisited self.new ≤ unvisited self.old }
        ensures falls { OnOk result (most_joins self.new pending.new.items ≤
            most_joins self.old pending.old.items) }
    {
        if self.visited[state.0] {
            return Ok(());
        }
        self.visited[state.0] = true;
        let table = self.table;
        let original = self.original_index(state);
        match table.successors(original) {
            Some(successors) => push_joins(state, successors, pending),
            None => Ok(()),
        }
    }

    /// Joins a state to its successors, one after the other, and walks on from each that was not
    /// visited before. A list keeps the joins still to be made, so a long walk takes no stack.
    pub(super) fn walk(&mut self, alloc: Global, state: StateIndex) -> Result<(), MergeError>
        requires ready { IsMerging self.old }
        requires walked { HasOriginalRow self.old state }
        ensures advances { Advances self.old self.new }
        ensures walked { OnOk result (HasWalked state self.old self.new) }
        ensures fewer { OnOk result (unvisited self.new ≤ unvisited self.old) }
        ensures error { IfErr result (IsMergeError self.new) }
    {
        let mut pending = Vec::new(alloc);
        self.come_to(state, &mut pending)?;
        while let Some(join) = pending.pop() {
            let copy = self.join_successor(alloc, join.state, join.successor)?;
            self.come_to(copy, &mut pending)?;
        }
        Ok(())
    }
}
