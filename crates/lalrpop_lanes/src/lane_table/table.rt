//! The lane table: a row for each state that a trace goes through, and a column for each action
//! that is traced.
mod beachheads;
mod closed;
pub mod rows;

ghost use Rattle.std.specs.Prelude.{◌≡◌, ◌<◌, ◌↔◌, Contains, IfOk, OnOk, OnErr, IfErr, IfSome, IsSome, IsNone};
ghost use Rattle.std.specs.Map.{keys_of};
ghost use Rattle.lalrpop_states.specs.declared.lr1_core.state.StateIndex.{StateIndex as State};
ghost use Rattle.lalrpop_lanes.specs.lanes.Contexts.{AreDisjoint};
ghost use Rattle.lalrpop_base.specs.Words.{IsJoinedAt};
ghost use Rattle.lalrpop_lanes.specs.lane_tables.LaneCells.{AreBelow};
ghost use Rattle.lalrpop_lanes.specs.declared.lane_table.context_set.OverlappingLookahead.TheVariants.{Overlapping};

use super::context_set::{ConflictIndex, ContextSet, OverlappingLookahead};
use lalrpop_base::collections::multimap::Multimap;
use lalrpop_base::collections::{Map, Set};
use lalrpop_base::lookahead::token_set::TokenSet;
use lalrpop_base::lr1_core::state::StateIndex;
use lalrpop_base::memory::OutOfMemory;
use lalrpop_base::repr::grammar::Grammar;
use std::alloc::Global;
use std::collections::BTreeMap;
use std::fmt;

/// The tokens that each state contributes to each action, and the edges over which the traces go
/// back. A trace steps back from a successor to its state.
#[derive(Drop)]
pub struct LaneTable<'grammar> {
    grammar: &'grammar Grammar,
    conflicts: usize,
    lookaheads: BTreeMap<(StateIndex, ConflictIndex), TokenSet>,
    successors: Multimap<StateIndex, Set<StateIndex>>,
    alloc: Global,
    ghost in_range: { AreBelow conflicts lookaheads.entries },
}

impl<'grammar> fmt::Debug for LaneTable<'grammar> {
    fn fmt<W: fmt::Write>(&self, f: &mut fmt::Formatter<W>) -> fmt::Result {
        write!(
            f,
            "cells {:?}, successors {:?}",
            self.lookaheads, self.successors
        )
    }
}

impl<'grammar> LaneTable<'grammar> {
    ghost use Rattle.lalrpop_lanes.specs.lane_tables.LaneTables.{AreSameTables, AddsTokens, AddsSuccessor, IsEmptyTable, AreInRange, AreColumns, ColumnsOverlap, IsRow, RowOverlaps, IsSuccessor};

    /// A table without rows. `conflicts` is the number of actions, which have a column each.
    pub fn new(alloc: Global, grammar: &'grammar Grammar, conflicts: usize) -> LaneTable<'grammar>
        ensures empty { IsEmptyTable result }
        ensures columns { result.conflicts ≡ conflicts }
        ensures in_range { AreInRange result }
    {
        LaneTable {
            grammar,
            conflicts,
            lookaheads: BTreeMap::new(alloc),
            successors: Multimap::new(alloc),
            alloc,
        }
    }

    /// Adds tokens to a cell, and makes the cell if there is none. `OutOfMemory` if an allocation
    /// fails.
    pub fn add_lookahead(
        &mut self,
        state: StateIndex,
        conflict: ConflictIndex,
        tokens: &TokenSet,
    ) -> Result<(), OutOfMemory>
        requires there { conflict.index < self.old.conflicts }
        ensures added { OnOk result (AddsTokens state conflict.index tokens.now self.old self.new) }
        ensures in_range { AreInRange self.old → AreInRange self.new }
        ensures columns { self.new.conflicts ≡ self.old.conflicts }
        ensures err { OnErr result (AreSameTables self.old self.new) }
    {
        join_at(self.alloc, &mut self.lookaheads, (state, conflict), tokens)?;
        Ok(())
    }

    /// Adds a successor of a state. `OutOfMemory` if an allocation fails.
    pub fn add_successor(
        &mut self,
        state: StateIndex,
        successor: StateIndex,
    ) -> Result<(), OutOfMemory>
        ensures added { OnOk result (AddsSuccessor state successor self.old self.new) }
        ensures in_range { AreInRange self.old → AreInRange self.new }
        ensures columns { self.new.conflicts ≡ self.old.conflicts }
        ensures err { OnErr result (AreSameTables self.old self.new) }
    {
        let _before = self.successors.iter();
        let pushed = self.successors.push(state, successor);
        let _after = self.successors.iter();
        pushed?;
        Ok(())
    }

    /// The tokens of each action, joined over all rows. `Overlapping` if two actions share a token,
    /// and `Memory` if an allocation fails.
    pub fn columns(&self, alloc: Global) -> Result<ContextSet, OverlappingLookahead>
        ensures columns { IfOk result (AreColumns self.now) }
        ensures disjoint { IfOk result AreDisjoint }
        ensures overlapping { IfErr result
            (λ error. error ≡ Overlapping → ColumnsOverlap self.now) }
    {
        let mut columns = ContextSet::new(alloc, self.conflicts)?;
        for ((_state, conflict), tokens) in self.lookaheads.iter() {
            columns.insert(*conflict, tokens)?;
        }
        Ok(columns)
    }

    /// The successors of a state, or `None` if the table has no entry of successors for the state.
    pub fn successors(&self, state: StateIndex) -> Option<&Set<StateIndex>>
        ensures exactly { IfSome result (λ set. (right : State) →
            Contains set.now.keys right ↔ IsSuccessor self.now state right) }
        ensures none { IsNone result → (right : State) → ¬ IsSuccessor self.now state right }
        ensures entry { IsSome result ↔ Contains (keys_of self.now.successors) state }
    {
        let _rising = self.successors.iter();
        self.successors.get(&state)
    }

    /// The tokens of each action in the row of a state. `Overlapping` if two actions share a token
    /// there, and `Memory` if an allocation fails.
    pub fn context_set(
        &self,
        alloc: Global,
        state: StateIndex,
    ) -> Result<ContextSet, OverlappingLookahead>
        ensures row { IfOk result (IsRow self.now state) }
        ensures disjoint { IfOk result AreDisjoint }
        ensures overlapping { IfErr result
            (λ error. error ≡ Overlapping → RowOverlaps self.now state) }
    {
        let mut columns = ContextSet::new(alloc, self.conflicts)?;
        for ((row, conflict), tokens) in self.lookaheads.iter() {
            if *row == state {
                columns.insert(*conflict, tokens)?;
            }
        }
        Ok(columns)
    }
}

// Joins tokens to those of a cell, and returns whether the cell is new or has more tokens now.
fn join_at(
    alloc: Global,
    cells: &mut BTreeMap<(StateIndex, ConflictIndex), TokenSet>,
    cell: (StateIndex, ConflictIndex),
    tokens: &TokenSet,
) -> Result<bool, OutOfMemory>
    ensures joined { IfOk result
        (λ told. IsJoinedAt cell tokens.now told cells.old.entries cells.new.entries) }
    ensures err { OnErr result (cells.new.entries ≡ cells.old.entries) }
{
    if let Some(known) = cells.get_mut(&cell) {
        let grew = known.union_with(tokens)?;
        return Ok(grew);
    }
    let copy = tokens.clone(alloc)?;
    cells.insert(cell, copy)?;
    Ok(true)
}
