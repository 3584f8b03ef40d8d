//! Lane tables, and the actions of their columns.
use super::context_set::push_columns;
use case_files::show::graph::push_state_set;
use case_files::show::words::push_production;
use lalrpop_base::collections::Set;
use lalrpop_base::lr1_core::state::{Action, StateIndex};
use lalrpop_base::memory::OutOfMemory;
use lalrpop_base::repr::terminals::TerminalSet;
use lalrpop_tables::lane_table::context_set::OverlappingLookahead;
use lalrpop_tables::lane_table::table::LaneTable;
use lalrpop_tables::lane_table::table::rows::RowsError;
use std::alloc::Global;

/// Appends the actions, each with its number from 0.
pub fn push_actions(text: &mut String, actions: &Set<Action<'_>>) -> Result<(), OutOfMemory> {
    for (place, action) in actions.iter().enumerate() {
        match action {
            Action::Shift(terminal, target) => {
                write!(text, "action {place}: shift {terminal} to {target}\n")?;
            }
            Action::Reduce(production) => {
                write!(text, "action {place}: reduce ")?;
                push_production(text, production)?;
                text.push_str("\n")?;
            }
        }
    }
    Ok(())
}

/// Appends the results of the calls of a lane table: the successors, columns, rows and beachheads,
/// and whether the table is closed over `count` states.
pub fn push_lane_table(
    alloc: Global,
    text: &mut String,
    table: &LaneTable<'_>,
    count: usize,
    terminals: &TerminalSet,
) -> Result<(), OutOfMemory> {
    push_successors(text, table, count)?;
    push_all_columns(alloc, text, table, terminals)?;
    push_rows(alloc, text, table, terminals)?;
    text.push_str("beachheads")?;
    push_state_set(text, &table.beachhead_states(alloc)?)?;
    write!(text, "\nis_closed {}\n", table.is_closed(count))?;
    Ok(())
}

// Appends the successors of each state that has successors.
fn push_successors(
    text: &mut String,
    table: &LaneTable<'_>,
    count: usize,
) -> Result<(), OutOfMemory> {
    for state in 0..count {
        if let Some(successors) = table.successors(StateIndex(state)) {
            write!(text, "successors {state}:")?;
            push_state_set(text, successors)?;
            text.push_str("\n")?;
        }
    }
    Ok(())
}

// Appends the columns, joined over all rows, or that they overlap.
fn push_all_columns(
    alloc: Global,
    text: &mut String,
    table: &LaneTable<'_>,
    terminals: &TerminalSet,
) -> Result<(), OutOfMemory> {
    match table.columns(alloc) {
        Ok(columns) => {
            text.push_str("columns")?;
            push_columns(alloc, text, &columns, table.column_count(), terminals)?;
            text.push_str("\n")?;
            Ok(())
        }
        Err(OverlappingLookahead::Overlapping) => Ok(text.push_str("columns overlap\n")?),
        Err(OverlappingLookahead::Memory) => Err(OutOfMemory),
    }
}

// Appends the rows, or a state whose row overlaps.
fn push_rows(
    alloc: Global,
    text: &mut String,
    table: &LaneTable<'_>,
    terminals: &TerminalSet,
) -> Result<(), OutOfMemory> {
    let rows = match table.rows(alloc) {
        Ok(rows) => rows,
        Err(RowsError::State(state)) => {
            write!(text, "rows overlap in state {state}\n")?;
            return Ok(());
        }
        Err(RowsError::Memory) => return Err(OutOfMemory),
    };
    for state in rows.keys() {
        push_row(alloc, text, table, *state, terminals)?;
    }
    Ok(())
}

/// Appends the row of a state, or that its columns overlap.
pub fn push_row(
    alloc: Global,
    text: &mut String,
    table: &LaneTable<'_>,
    state: StateIndex,
    terminals: &TerminalSet,
) -> Result<(), OutOfMemory> {
    match table.context_set(alloc, state) {
        Ok(row) => {
            write!(text, "row {state}:")?;
            push_columns(alloc, text, &row, table.column_count(), terminals)?;
            text.push_str("\n")?;
        }
        Err(OverlappingLookahead::Overlapping) => write!(text, "row {state} overlaps\n")?,
        Err(OverlappingLookahead::Memory) => return Err(OutOfMemory),
    }
    Ok(())
}
