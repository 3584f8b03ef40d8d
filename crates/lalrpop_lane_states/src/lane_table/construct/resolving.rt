//! The tokens of the reductions of one state.
ghost use Rattle.std.specs.Prelude.{◌≡◌, length, IfOk, OnErr, MatchBool};
ghost use Rattle.lalrpop_lanes.specs.Words.{AreAmong};
ghost use Rattle.lalrpop_lane_states.specs.lane_states.LaneStates.{IsAttempted};
ghost use Rattle.lalrpop_lanes.specs.lane_tables.LaneTables.{AreInRange, ColumnsOverlap};

use lalrpop_base::collections::Set;
use lalrpop_base::lr1_core::state::{Action, Lr1State};
use lalrpop_base::memory::OutOfMemory;
use lalrpop_lanes::lane_table::context_set::OverlappingLookahead;
use lalrpop_lanes::lane_table::table::LaneTable;
use std::alloc::Global;

/// Gives each reduction its column, if no two columns share a token, and returns whether this is
/// so. Else the state stays as it is.
pub(super) fn attempt_lalr<'grammar>(
    alloc: Global,
    state: &mut Lr1State<'grammar>,
    table: &LaneTable<'grammar>,
    actions: &Set<Action<'grammar>>,
) -> Result<bool, OutOfMemory>
    requires in_range { AreInRange table.now }
    requires counted { table.now.conflicts ≡ length actions.now.keys }
    requires among { AreAmong actions.now.keys state.old }
    ensures attempted { IfOk result (λ done. MatchBool done
        (IsAttempted actions.now.keys table.now state.old state.new)
        (ColumnsOverlap table.now × (state.new ≡ state.old))) }
    ensures err { OnErr result (state.new ≡ state.old) }
{
    match table.columns(alloc) {
        Ok(columns) => {
            columns.apply(alloc, state, actions)?;
            Ok(true)
        }
        Err(OverlappingLookahead::Overlapping) => Ok(false),
        Err(OverlappingLookahead::Memory) => Err(OutOfMemory),
    }
}
