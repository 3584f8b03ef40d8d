//! Whether a lane table is closed under successors.
ghost use Rattle.std.specs.Prelude.{◌≡◌, ◌↔◌, Contains, IsTrue};
ghost use Rattle.lalrpop_states.specs.declared.lr1_core.state.StateIndex.{StateIndex as State};
ghost use Rattle.lalrpop_lanes.specs.lane_tables.LaneRows.{HasCells};
ghost use Rattle.lalrpop_lanes.specs.lane_tables.LaneTableStates.{HasCellsBelow, IsClosedEdge};
ghost use Rattle.lalrpop_lanes.specs.lane_tables.LaneTables.{HasRow, IsClosed, IsSuccessor};

use super::LaneTable;
use lalrpop_base::collections::Set;
use lalrpop_base::lr1_core::state::StateIndex;

impl<'grammar> LaneTable<'grammar> {
    /// Whether all states of the table have numbers below `count`, and each successor has a row.
    pub fn is_closed(&self, count: usize) -> bool
        ensures { IsTrue result ↔ IsClosed count self.now }
    {
        self.has_cells_below(count) && self.has_closed_edges(count)
    }

    // Whether each state with a cell has a number below the count.
    fn has_cells_below(&self, count: usize) -> bool
        ensures { IsTrue result ↔ HasCellsBelow count self.now }
    {
        for ((state, _conflict), _tokens) in self.lookaheads.iter() {
            if state.0 >= count {
                return false;
            }
        }
        true
    }

    // Whether all edges are closed: both states have numbers below `count`, and the successor has a
    // row.
    fn has_closed_edges(&self, count: usize) -> bool
        ensures { IsTrue result ↔ ((left right : State) →
            IsSuccessor self.now left right →
            IsClosedEdge count self.now left right) }
    {
        for (state, successors) in self.successors.iter() {
            if !self.are_closed(count, *state, successors) {
                return false;
            }
        }
        true
    }

    // Whether the edges of a state are closed.
    fn are_closed(&self, count: usize, state: StateIndex, successors: &Set<StateIndex>) -> bool
        ensures { IsTrue result ↔ ((right : State) →
            Contains successors.now.keys right →
            IsClosedEdge count self.now state right) }
    {
        for successor in successors.iter() {
            if !self.is_closed_edge(count, state, *successor) {
                return false;
            }
        }
        true
    }

    // Whether an edge is closed.
    fn is_closed_edge(&self, count: usize, state: StateIndex, successor: StateIndex) -> bool
        ensures { IsTrue result ↔ IsClosedEdge count self.now state successor }
    {
        if state.0 >= count || successor.0 >= count {
            return false;
        }
        self.has_row(successor)
    }

    /// Whether a state has a cell, which may be empty, or a successor.
    pub fn has_row(&self, state: StateIndex) -> bool
        ensures { IsTrue result ↔ HasRow self.now state }
    {
        if self.has_cell(state) {
            return true;
        }
        match self.successors(state) {
            Some(successors) => !successors.is_empty(),
            None => false,
        }
    }

    /// The number of columns, one for each action that is traced.
    pub fn column_count(&self) -> usize
        ensures { result ≡ self.now.conflicts }
    {
        self.conflicts
    }

    // Whether a state has a cell.
    fn has_cell(&self, state: StateIndex) -> bool
        ensures { IsTrue result ↔ HasCells self.now.lookaheads.entries state }
    {
        for ((row, _conflict), _tokens) in self.lookaheads.iter() {
            if *row == state {
                return true;
            }
        }
        false
    }
}
