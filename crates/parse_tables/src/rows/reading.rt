//! The numbers of packed rows.
ghost use Rattle.std.specs.Prelude.{◌≡◌, [], length};
ghost use Rattle.parse_tables.specs.Rows.{number_at, row_count};

use super::Rows;
use std::alloc::Global;

impl Rows {
    /// Without a row.
    pub(crate) fn new(alloc: Global) -> Rows
        ensures { result.rows.items ≡ [] }
    {
        Rows {
            rows: Vec::new(alloc),
            cells: Vec::new(alloc),
            owners: 0,
        }
    }

    /// How many rows there are.
    pub(crate) fn len(&self) -> usize
        ensures { result ≡ row_count self.now }
    {
        self.rows.len()
    }

    /// How many cells there are.
    pub(crate) fn cell_count(&self) -> usize
        ensures { result ≡ length self.now.cells.items }
    {
        self.cells.len()
    }

    /// The number in a row and a column. It is 0 if there is none.
    pub(crate) fn get(&self, row: u32, column: u32) -> u32
        ensures { result ≡ number_at self.now row column }
    {
        let Some((start, owner)) = self.rows.get(row as usize) else {
            return 0;
        };
        let Some((held_by, number)) = self.cells.get(*start as usize + column as usize) else {
            return 0;
        };
        if held_by == owner { *number } else { 0 }
    }
}
