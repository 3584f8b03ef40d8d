//! The rows of a lane table.
ghost use Rattle.std.specs.Prelude.{◌≡◌, ◌<◌, ◌↔◌, List, length, Some, Contains, IfOk, OnOk, IfErr};
ghost use Rattle.std.specs.Map.{keys_of};
ghost use Rattle.lalrpop_base.specs.Words.{Bits};
ghost use Rattle.lalrpop_lanes.specs.lanes.Contexts.{AreDisjoint};
ghost use Rattle.lalrpop_states.specs.declared.lr1_core.state.StateIndex.{StateIndex as Number};
ghost use Rattle.lalrpop_lanes.specs.lane_tables.LaneRows.{AddsRows, AreRowsOf, IsFirstOverlap, JoinsRow, MakesRow, MeetsRow, row_at};
ghost use Rattle.lalrpop_lanes.specs.lane_tables.LaneTables.{HasRow, IsRow};
ghost use Rattle.lalrpop_lanes.specs.declared.lane_table.context_set.OverlappingLookahead.TheVariants.{Overlapping};
ghost use Rattle.lalrpop_lanes.specs.declared.lane_table.table.rows.RowsError.TheVariants.{Memory};

use super::super::context_set::{ConflictIndex, ContextSet, OverlappingLookahead};
use super::LaneTable;
use lalrpop_base::collections::Map;
use lalrpop_base::lookahead::token_set::TokenSet;
use lalrpop_base::lr1_core::state::StateIndex;
use lalrpop_base::memory::OutOfMemory;
use std::alloc::Global;
use std::collections::BTreeMap;
use thiserror::Error;

/// Why there are no rows: two actions share a token in the row of a state, or an allocation failed.
#[derive(Clone, Copy, Debug, PartialEq, Eq, Error)]
pub enum RowsError {
    #[error("overlapping lookahead in the row of state {0}")]
    State(StateIndex),
    #[error("out of memory")]
    Memory,
}

impl From<OutOfMemory> for RowsError {
    ghost from_gives = { λ _ e. e ≡ Memory };

    fn from(_error: OutOfMemory) -> RowsError {
        RowsError::Memory
    }
}

impl<'grammar> LaneTable<'grammar> {
    /// The row of each state that has a cell or a successor. The error `State` has the first state
    /// in whose row two actions share a token. The error is `Memory` if an allocation fails.
    pub fn rows(&self, alloc: Global) -> Result<Map<StateIndex, ContextSet>, RowsError>
        ensures states { IfOk result (λ rows. (state : Number) →
            Contains (keys_of rows.entries) state ↔ HasRow self.now state) }
        ensures each { IfOk result (λ rows. (state : Number) (row : List Bits) →
            Contains rows.entries (state, row) →
            IsRow self.now state row × AreDisjoint row) }
        ensures first { IfErr result (IsFirstOverlap self.now) }
    {
        let mut rows = self.rows_of_cells(alloc)?;
        self.add_rows(alloc, &mut rows)?;
        let _count = rows.len();
        Ok(rows)
    }

    // The rows of the states with cells.
    fn rows_of_cells(&self, alloc: Global) -> Result<Map<StateIndex, ContextSet>, RowsError>
        ensures rows { IfOk result
            (λ rows. AreRowsOf self.now.conflicts self.now.lookaheads.entries rows.entries) }
        ensures first { IfErr result (IsFirstOverlap self.now) }
    {
        let mut rows = BTreeMap::new(alloc);
        for ((state, conflict), tokens) in self.lookaheads.iter() {
            match join_to_row(alloc, self.conflicts, &mut rows, *state, *conflict, tokens) {
                Ok(()) => {}
                Err(OverlappingLookahead::Overlapping) => return Err(RowsError::State(*state)),
                Err(OverlappingLookahead::Memory) => return Err(RowsError::Memory),
            }
        }
        Ok(rows)
    }

    // Adds rows without tokens for the other states that have successors.
    fn add_rows(
        &self,
        alloc: Global,
        rows: &mut Map<StateIndex, ContextSet>,
    ) -> Result<(), OutOfMemory>
        ensures { OnOk result
            (AddsRows self.now.conflicts self.now.successors rows.old.entries rows.new.entries) }
    {
        for (state, successors) in self.successors.iter() {
            if !successors.is_empty() {
                make_row(alloc, self.conflicts, rows, *state)?;
            }
        }
        Ok(())
    }
}

// Adds a row without tokens for a state that has no row.
#[tactic(auto, using(crate::proofs::theory::lane_tables::LaneRows::made_already))]
fn make_row(
    alloc: Global,
    count: usize,
    rows: &mut Map<StateIndex, ContextSet>,
    state: StateIndex,
) -> Result<(), OutOfMemory>
    ensures { OnOk result (MakesRow count state rows.old.entries rows.new.entries) }
{
    if rows.contains_key(&state) {
        return Ok(());
    }
    let row = ContextSet::new(alloc, count)?;
    rows.insert(state, row)?;
    Ok(())
}

// Joins tokens to a column of the row of a state.
fn join_to_row(
    alloc: Global,
    count: usize,
    rows: &mut Map<StateIndex, ContextSet>,
    state: StateIndex,
    conflict: ConflictIndex,
    tokens: &TokenSet,
) -> Result<(), OverlappingLookahead>
    requires within { conflict.index < count }
    requires counted { (row : List Bits) →
        row_at rows.old.entries state ≡ Some row →
        length row ≡ count }
    ensures joined { OnOk result
        (JoinsRow count state conflict.index tokens.now rows.old.entries rows.new.entries) }
    ensures overlapping { IfErr result (λ error. error ≡ Overlapping →
        MeetsRow count state conflict.index tokens.now rows.old.entries) }
{
    make_row(alloc, count, rows, state)?;
    match rows.get_mut(&state) {
        Some(row) => {
            row.insert(conflict, tokens)?;
            Ok(())
        }
        None => unreachable!(),
    }
}
