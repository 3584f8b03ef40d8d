//! Rows of cells, each once.

use crate::cells::small;
use crate::error::PackError;
use crate::packed::PackedRows;
use crate::places::starts_of;
use std::alloc::Global;
use std::collections::BTreeMap;

/// Rows, each with the columns and the numbers of its cells. Equal rows are one.
#[derive(Drop)]
pub(crate) struct DistinctRows {
    alloc: Global,
    rows: Vec<Vec<(u32, u32)>>,
    // The number of each row.
    known: BTreeMap<Vec<(u32, u32)>, usize>,
    // The row of each state.
    of_states: Vec<usize>,
}

impl DistinctRows {
    /// Without a row.
    pub(crate) fn new(alloc: Global) -> DistinctRows {
        DistinctRows {
            alloc,
            rows: Vec::new(alloc),
            known: BTreeMap::new(alloc),
            of_states: Vec::new(alloc),
        }
    }

    /// Adds the row of the next state.
    pub(crate) fn add(&mut self, row: Vec<(u32, u32)>) -> Result<(), PackError> {
        if let Some(number) = self.known.get(&row).copied() {
            self.of_states.push(number)?;
            return Ok(());
        }
        let number = self.rows.len();
        self.known.insert(row.clone()?, number)?;
        self.rows.push(row)?;
        self.of_states.push(number)?;
        Ok(())
    }

    /// The rows in one list of cells, with room for so many columns after the last start.
    pub(crate) fn pack(&self, columns: usize) -> Result<PackedRows, PackError> {
        let starts = starts_of(self.alloc, &self.rows)?;
        let len = largest(&starts).saturating_add(columns);
        let mut column = Vec::new(self.alloc);
        column.resize(len, small(columns)?)?;
        let mut cell = Vec::new(self.alloc);
        cell.resize(len, 0)?;
        for (cells, start) in self.rows.iter().zip(&starts) {
            write_cells(cells, *start, &mut column, &mut cell);
        }
        Ok(PackedRows {
            row: self.starts_of_states(&starts)?,
            column,
            cell,
        })
    }

    // Where the row of each state begins.
    fn starts_of_states(&self, starts: &[usize]) -> Result<Vec<u32>, PackError> {
        let mut row = Vec::new(self.alloc);
        for number in &self.of_states {
            let start = if *number < starts.len() {
                starts[*number]
            } else {
                0
            };
            row.push(small(start)?)?;
        }
        Ok(row)
    }
}

// Writes the columns and the numbers of a row after its start. All have room.
fn write_cells(cells: &[(u32, u32)], start: usize, column: &mut [u32], cell: &mut [u32]) {
    for (own, number) in cells {
        let place = start.wrapping_add(*own as usize);
        if place < column.len() && place < cell.len() {
            column[place] = *own;
            cell[place] = *number;
        }
    }
}

// The largest of numbers, or 0 if there is none.
fn largest(numbers: &[usize]) -> usize {
    let mut most = 0;
    for number in numbers {
        most = most.max(*number);
    }
    most
}
