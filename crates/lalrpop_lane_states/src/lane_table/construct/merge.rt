//! The merging of states along the successors of a lane table. States are joined if their tokens
//! agree, and else copied.
mod context_sets;
mod copies;
mod walk;

ghost use Rattle.std.specs.Prelude.{◌≡◌, ◌≤◌, ◌↔◌, ℕ, Bool, true, false, List, length, slice_get, Some, Contains, IfOk, IsTrue, OnOk, IfErr};
ghost use Rattle.std.specs.Map.{keys_of};
ghost use Rattle.lalrpop_base.specs.Words.{Bits, AreCoherent, contents, IsCopying, number_in};
ghost use Rattle.lalrpop_lanes.specs.Words.{AreDisjoint};
ghost use Rattle.lalrpop_states.specs.declared.lr1_core.state.State.{State};
ghost use Rattle.lalrpop_states.specs.declared.lr1_core.state.StateIndex.{StateIndex as Number};
ghost use Rattle.lalrpop_grammar.specs.declared.repr.TerminalString.{TerminalString as Terminal};
ghost use Rattle.lalrpop_state_graph.specs.graphs.GraphCopies.{FollowsCopies};
ghost use Rattle.lalrpop_lanes.specs.lane_tables.LaneTables.{HasRow, IsClosed, IsRow};
ghost use Rattle.lalrpop_lane_states.specs.merges.Merges.{Advances, HasWalked, IsMergeError, IsMerging, IsPatchable, IsResolvedCopy, TookOwnColumns};
ghost use Rattle.lalrpop_state_graph.specs.graphs.Copies.{AreCopies};
ghost use Rattle.lalrpop_lane_states.specs.declared.lane_table.construct.merge.MergeError.TheVariants.{Memory};

use self::context_sets::ContextSets;
pub(crate) use self::copies::own_numbers;
use lalrpop_base::collections::{Map, Set};
use lalrpop_base::lr1_core::state::{Action, Lr1State, StateIndex};
use lalrpop_base::memory::OutOfMemory;
use lalrpop_lanes::lane_table::context_set::{ContextSet, are_among};
use lalrpop_lanes::lane_table::table::LaneTable;
use lalrpop_state_graph::state_graph::StateGraph;
use std::alloc::Global;
use thiserror::Error;

/// Why states were not merged.
#[derive(Clone, Copy, Debug, PartialEq, Eq, Error)]
pub enum MergeError {
    #[error("the tokens of state {0} and of its successor {1} overlap")]
    Apart(StateIndex, StateIndex),
    #[error("no more states are copied")]
    CopyLimit,
    #[error("out of memory")]
    Memory,
}

impl From<OutOfMemory> for MergeError {
    ghost from_gives = { λ _ e. e ≡ Memory };

    fn from(_error: OutOfMemory) -> MergeError {
        MergeError::Memory
    }
}

/// The states of a table while those of a lane table are merged. A copy gets the next number after
/// all states before it.
#[derive(Drop)]
pub struct Merge<'table, 'grammar> {
    table: &'table LaneTable<'grammar>,
    states: Vec<Lr1State<'grammar>>,
    inconsistent_state: StateIndex,
    copies_left: usize,
    first_copy: usize,
    originals: Vec<usize>,
    visited: Vec<bool>,
    context_sets: ContextSets,
}

impl<'table, 'grammar> Merge<'table, 'grammar> {
    /// The beginning of a merge: nothing is joined, and each state with a row has a set of its own.
    /// `copies_left` is the number of copies that may be made. `OutOfMemory` if an allocation
    /// fails.
    pub fn new(
        alloc: Global,
        table: &'table LaneTable<'grammar>,
        rows: Map<StateIndex, ContextSet>,
        states: Vec<Lr1State<'grammar>>,
        inconsistent_state: StateIndex,
        copies_left: usize,
    ) -> Result<Self, OutOfMemory>
        requires coherent { AreCoherent states.items }
        requires closed { IsClosed (length states.items) table.now }
        requires rows { (state : Number) →
            Contains (keys_of rows.entries) state ↔ HasRow table.now state }
        requires each { (state : Number) (row : List Bits) →
            Contains rows.entries (state, row) →
            IsRow table.now state row × AreDisjoint row }
        requires start { HasRow table.now inconsistent_state }
        ensures ready { IfOk result IsMerging }
        ensures over { IfOk result (λ merge. (merge.table.now ≡ table.now) ×
            (merge.inconsistent_state ≡ inconsistent_state) × (merge.copies_left ≡ copies_left) ×
            (merge.states ≡ states.entry)) }
        ensures copies { IfOk result
            (λ merge. AreCopies true states.entry.items merge.originals.items merge.states.items) }
    {
        let count = states.len();
        let context_sets = ContextSets::new(alloc, rows)?;
        let originals = own_numbers(alloc, count)?;
        let visited = vec![in alloc; false; count]?;
        Ok(Merge {
            table,
            states,
            inconsistent_state,
            copies_left,
            first_copy: count,
            originals,
            visited,
            context_sets,
        })
    }

    /// Whether the lane table has a row for a state.
    pub fn has_row(&self, state: StateIndex) -> bool
        ensures { IsTrue result ↔ HasRow self.now.table.now state }
    {
        self.table.has_row(state)
    }

    /// Whether there is one action for each column, and the actions include each reduction of the
    /// inconsistent state.
    pub fn is_patchable(&self, actions: &Set<Action<'grammar>>) -> bool
        requires { IsMerging self.now }
        ensures { IsTrue result ↔ IsPatchable actions.now.keys self.now }
    {
        if self.table.column_count() != actions.len() {
            return false;
        }
        are_among(actions, &self.states[self.inconsistent_state.0].reductions)
    }

    /// Walks from a state with a row, unless it was visited before. After an error the copies made
    /// so far stay, and so do changed edges.
    pub fn start(&mut self, alloc: Global, beachhead_state: StateIndex) -> Result<(), MergeError>
        requires ready { IsMerging self.old }
        requires row { HasRow self.old.table.now beachhead_state }
        ensures advances { Advances self.old self.new }
        ensures coherent { AreCoherent self.new.states.items }
        ensures walked { OnOk result (HasWalked beachhead_state self.old self.new) }
        ensures error { IfErr result (IsMergeError self.new) }
    {
        self.walk(alloc, beachhead_state)
    }

    /// Gives each reduction of the inconsistent state, and of its copies, the tokens of its action
    /// in the set of its state. After an allocation failure some of these states are patched.
    pub fn patch_target_starts(
        &mut self,
        alloc: Global,
        actions: &Set<Action<'grammar>>,
    ) -> Result<(), OutOfMemory>
        requires ready { IsMerging self.old }
        requires patchable { IsPatchable actions.now.keys self.old }
        ensures ready { IsMerging self.new }
        ensures coherent { AreCoherent self.new.states.items }
        ensures copies { (exact : Bool) (handed : List (State Bits)) →
            AreCopies exact handed self.old.originals.items self.old.states.items →
            AreCopies false handed self.new.originals.items self.new.states.items }
        ensures others { (n : ℕ) →
            (slice_get self.old.originals.items n ≡ Some self.old.inconsistent_state.0 → ⊥) →
            slice_get self.new.states.items n ≡ slice_get self.old.states.items n }
        ensures same { self.new ≡ record self.old { states = self.new.states } }
        ensures counted { length self.new.states.items ≡ length self.old.states.items }
        ensures taken { OnOk result
            ((n : ℕ) → TookOwnColumns actions.now.keys self.old self.new n) }
        ensures resolved { OnOk result ((n : ℕ) → IsResolvedCopy self.new n) }
    {
        let count = self.states.len();
        for index in 0..count {
            self.patch_target_start(alloc, index, actions)?;
        }
        Ok(())
    }

    /// The number of copies that may still be made.
    pub fn copies_left(&self) -> usize
        ensures { result ≡ self.now.copies_left }
    {
        self.copies_left
    }

    /// Updates the graph of the first `count` states, which were handed in, to the graph of all
    /// states as they are now.
    pub(super) fn update_graph(
        &self,
        alloc: Global,
        graph: &mut StateGraph,
        count: usize,
    ) -> Result<(), OutOfMemory>
        requires { count ≤ length self.now.states.items }
        ensures { OnOk result (FollowsCopies count self.now.originals.items self.now.states.items
            self.now.states.items graph.old graph.new) }
    {
        graph.follow_copies(alloc, &self.states, &self.originals, count)?;
        Ok(())
    }

    /// The number of the original of each state.
    pub(super) fn originals(&self) -> &[usize]
        ensures { result.now ≡ self.now.originals.items }
    {
        &self.originals
    }

    /// The states. Copies come after all others.
    pub fn into_states(self) -> Vec<Lr1State<'grammar>>
        ensures states { result ≡ self.entry.states }
        ensures copying { (exact : Bool) (handed : List (State Bits)) (terminals : List Terminal) →
            AreCopies exact handed self.entry.originals.items result.items →
            IsCopying (number_in self.entry.originals.items) (contents terminals handed)
            (contents terminals result.items) }
    {
        let Merge { states, .. } = self;
        states
    }
}
