//! Copies of states, and the edges that lead to them.
ghost use Rattle.std.specs.Prelude.{◌≡◌, ◌<◌, ℕ, length, slice_get, Some, IfOk, OnOk, OnErr, IfErr};
ghost use Rattle.lalrpop_lanes.specs.Words.{AreDisjoint};
ghost use Rattle.lalrpop_base.specs.Words.{retargeted_all};
ghost use Rattle.lalrpop_lanes.specs.lane_tables.LaneTables.{ColumnsOverlap, HasRow, IsRow, RowOverlaps};
ghost use Rattle.lalrpop_lane_states.specs.merges.Merges.{Advances, AreTargetsAmong, HaveNoNewMarks, IsFreshCopy, IsCopyLimit, IsLonger, IsMergeError, IsMerging, IsPushed, IsRelinked, IsTaken, HasOriginalRow, KeepsStates, replaced_number};
ghost use Rattle.lalrpop_state_graph.specs.graphs.Copies.{index as index_of};
ghost use Rattle.lalrpop_lane_states.specs.merges.StateSets.{context_of};

use super::{Merge, MergeError};
use lalrpop_base::collections::Set;
use lalrpop_base::lr1_core::state::{Action, Lr1State, StateIndex};
use lalrpop_base::memory::OutOfMemory;
use lalrpop_lanes::lane_table::context_set::{ContextSet, OverlappingLookahead};
use lalrpop_lanes::lane_table::table::LaneTable;
use std::alloc::Global;
use std::collections::BTreeMap;

/// The numbers below `count`, in order.
#[tactic(auto, using(crate::proofs::theory::merges::Merges::numbers_more))]
pub(crate) fn own_numbers(alloc: Global, count: usize) -> Result<Vec<usize>, OutOfMemory>
    ensures counted { IfOk result (λ numbers. length numbers.items ≡ count) }
    ensures own { IfOk result
        (λ numbers. (n : ℕ) → n < count → slice_get numbers.items n ≡ Some n) }
{
    let mut numbers = Vec::new(alloc);
    for number in 0..count {
        numbers.push(number)?;
    }
    Ok(numbers)
}

// The row of a state. No two columns share a token in it.
fn row_of(alloc: Global, table: &LaneTable, state: StateIndex) -> Result<ContextSet, OutOfMemory>
    requires { ¬ RowOverlaps table.now state }
    ensures { IfOk result (λ row. IsRow table.now state row × AreDisjoint row) }
{
    match table.context_set(alloc, state) {
        Ok(row) => Ok(row),
        Err(OverlappingLookahead::Overlapping) => unreachable!(),
        Err(OverlappingLookahead::Memory) => Err(OutOfMemory),
    }
}

// Replaces each target `old` by `new`.
fn replace_targets<K: Ord + Drop>(
    targets: &mut BTreeMap<K, StateIndex>,
    old: StateIndex,
    new: StateIndex,
)
    ensures { targets.new.entries ≡
        retargeted_all (replaced_number old.0 new.0) targets.old.entries }
{
    targets.retain(|_, target| {
        if *target == old {
            *target = new;
        }
        true
    });
}

impl<'table, 'grammar> Merge<'table, 'grammar> {
    // Appends a copy to the states, and lowers the number of copies left.
    fn push_copy(&mut self, copy: Lr1State<'grammar>, original: usize) -> Result<(), OutOfMemory>
        requires left { 0 < self.old.copies_left }
        ensures pushed { OnOk result (IsPushed copy.entry original self.old self.new) }
        ensures err { OnErr result (IsLonger self.old self.new) }
    {
        self.visited.push(false)?;
        self.originals.push(original)?;
        if self.states.push(copy).is_err() {
            self.originals.pop();
            return Err(OutOfMemory);
        }
        self.copies_left -= 1;
        Ok(())
    }

    /// Adds a copy of a state as it is now, with a set of its own. The set has the tokens of the
    /// state's row. `CopyLimit` if no copy may be made any more.
    pub(super) fn copy_state(
        &mut self,
        alloc: Global,
        state: StateIndex,
    ) -> Result<StateIndex, MergeError>
        requires ready { IsMerging self.old }
        requires row { HasRow self.old.table.now state }
        requires overlap { ColumnsOverlap self.old.table.now }
        ensures advances { Advances self.old self.new }
        ensures marks { HaveNoNewMarks self.old self.new }
        ensures copied { IfOk result (λ copy. IsFreshCopy state copy self.old self.new) }
        ensures error { IfErr result (IsMergeError self.new) }
        ensures limit { IfErr result (IsCopyLimit self.old) }
        ensures kept { KeepsStates self.old self.new }
    {
        if self.copies_left == 0 {
            return Err(MergeError::CopyLimit);
        }
        let row = row_of(alloc, self.table, state)?;
        let index = StateIndex(self.states.len());
        let mut copy = self.states[state.0].clone(alloc)?;
        copy.index = index;
        self.context_sets.new_state(index, row)?;
        self.push_copy(copy, state.0)?;
        Ok(index)
    }

    /// Changes the edges of a state that lead to a successor, so that they lead to a copy of this
    /// successor.
    pub(super) fn patch_links(
        &mut self,
        predecessor: StateIndex,
        original_successor: StateIndex,
        cloned_successor: StateIndex,
    )
        requires ready { IsMerging self.old }
        requires walked { HasOriginalRow self.old predecessor }
        requires own { slice_get self.old.originals.items original_successor.0 ≡ Some
            original_successor.0 }
        requires copy { slice_get self.old.originals.items cloned_successor.0 ≡ Some
            original_successor.0 }
        ensures advances { Advances self.old self.new }
        ensures marks { HaveNoNewMarks self.old self.new }
        ensures relinked { IsRelinked predecessor.0 original_successor.0 cloned_successor.0
            self.old.states.items self.new.states.items }
        ensures same { self.new ≡ record self.old { states = self.new.states } }
    {
        let state = &mut self.states[predecessor.0];
        replace_targets(&mut state.shifts, original_successor, cloned_successor);
        replace_targets(&mut state.gotos, original_successor, cloned_successor);
    }

    /// Gives the reductions of a state the columns of its set, if the state is the inconsistent one
    /// or a copy of it.
    pub(super) fn patch_target_start(
        &mut self,
        alloc: Global,
        index: usize,
        actions: &Set<Action<'grammar>>,
    ) -> Result<(), OutOfMemory>
        requires ready { IsMerging self.old }
        requires there { index < length self.old.states.items }
        requires counted { self.old.table.now.conflicts ≡ length actions.now.keys }
        requires among { AreTargetsAmong actions.now.keys self.old }
        ensures same { self.new ≡ record self.old { states = self.new.states } }
        ensures taken { OnOk result (
            slice_get self.old.originals.items index ≡ Some self.old.inconsistent_state.0 →
            IsTaken actions.now.keys (context_of self.old.context_sets (index_of index)) index
            self.old.states.items self.new.states.items) }
        ensures left { OnOk result (
            (slice_get self.old.originals.items index ≡ Some self.old.inconsistent_state.0 → ⊥) →
            self.new.states.items ≡ self.old.states.items) }
        ensures err { OnErr result (self.new.states.items ≡ self.old.states.items) }
    {
        if self.originals[index] != self.inconsistent_state.0 {
            return Ok(());
        }
        let context_set = self.context_sets.context_set(StateIndex(index));
        context_set.apply(alloc, &mut self.states[index], actions)
    }
}
