//! Adds rows to packed rows.
ghost use Rattle.std.specs.Prelude.{◌≡◌, ◌<◌, ℕ, IsTrue, OnOk, length, slice_index};
ghost use Rattle.parse_tables.specs.Cells.{AreColumns, IsFree};
ghost use Rattle.parse_tables.specs.Rows.{AddsRow, number_at, row_count};

use super::Rows;
use crate::cells::{is_free, make_room, number_of, write_row};
use crate::error::ParseTableError;

// In so many places before the end of the cells it is tried to begin a row.
const TRIES: usize = 1_024;

impl Rows {
    /// Adds a row after the others. Its columns with a number other than 0 are listed. The errors
    /// are `TooLarge` and `Memory`.
    pub(crate) fn add(&mut self, row: &[u32], columns: &[usize]) -> Result<(), ParseTableError>
        requires { AreColumns row.now columns.now }
        ensures { OnOk result (AddsRow self.old self.new row.now) }
    {
        let start = self.start_for(columns);
        let first = number_of(start)?;
        let owner = number_of(self.owners as usize + 1)?;
        make_room(&mut self.cells, start, row.len())?;
        self.rows.push((first, owner))?;
        self.owners = owner;
        write_row(&mut self.cells, start, owner, row);
        Ok(())
    }

    // A cell from which on the cells under columns are free.
    fn start_for(&self, columns: &[usize]) -> usize
        ensures { IsFree self.now.cells.items columns.now result }
    {
        let end = self.cells.len();
        for start in end.saturating_sub(TRIES)..end {
            if is_free(&self.cells, columns, start) {
                return start;
            }
        }
        end
    }

    /// Whether an earlier row has the numbers of a row, in the columns of that row.
    pub(crate) fn is_row(&self, number: usize, row: &[u32]) -> bool
        ensures { IsTrue result → (column : ℕ) → column < length row.now →
            number_at self.now number column ≡ slice_index row.now column }
    {
        let Ok(number) = number_of(number) else {
            return false;
        };
        for (column, own) in row.iter().enumerate() {
            let Ok(column) = number_of(column) else {
                return false;
            };
            if self.get(number, column) != *own {
                return false;
            }
        }
        true
    }

    /// Adds a row after the others, which is equal to an earlier one in the columns of `row`.
    pub(crate) fn repeat(&mut self, number: usize, row: &[u32]) -> Result<(), ParseTableError>
        requires within { number < row_count self.old }
        requires equal { (column : ℕ) → column < length row.now →
            number_at self.old number column ≡ slice_index row.now column }
        ensures { OnOk result (AddsRow self.old self.new row.now) }
    {
        self.rows.push(self.rows[number])?;
        Ok(())
    }
}
