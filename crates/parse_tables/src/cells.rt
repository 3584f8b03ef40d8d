//! The cells of packed rows.
ghost use Rattle.std.specs.Prelude.{◌≡◌, ◌+◌, ◌≤◌, ℕ, IsTrue, OnOk, IfOk, length};
ghost use Rattle.parse_tables.specs.Cells.{AreColumns, IsFree, IsRowWritten, cell_in};

use crate::error::ParseTableError;

/// A number of 32 bits. The error is `TooLarge`.
pub(crate) fn number_of(number: usize) -> Result<u32, ParseTableError>
    ensures { IfOk result (λ n. n ≡ number) }
{
    match u32::try_from(number) {
        Ok(number) => Ok(number),
        Err(_) => Err(ParseTableError::TooLarge),
    }
}

/// Whether the cells under columns are free, for a row that begins at a cell.
pub(crate) fn is_free(cells: &[(u32, u32)], columns: &[usize], start: usize) -> bool
    ensures { IsTrue result → IsFree cells.now columns.now start }
{
    for column in columns {
        let Some(place) = start.checked_add(*column) else {
            return false;
        };
        if let Some((owner, _)) = cells.get(place) {
            if *owner != 0 {
                return false;
            }
        }
    }
    true
}

/// Adds free cells, so that there are cells for a row of a length that begins at a cell.
pub(crate) fn make_room(
    cells: &mut Vec<(u32, u32)>,
    start: usize,
    len: usize,
) -> Result<(), ParseTableError>
    ensures room { OnOk result (start + len ≤ length cells.new.items) }
    ensures kept { (k : ℕ) → cell_in cells.new.items k ≡ cell_in cells.old.items k }
{
    let Some(end) = start.checked_add(len) else {
        return Err(ParseTableError::TooLarge);
    };
    if cells.len() < end {
        cells.resize(end, (0, 0))?;
    }
    Ok(())
}

/// Writes the numbers of a row that are not 0 over cells from a start on.
pub(crate) fn write_row(cells: &mut Vec<(u32, u32)>, start: usize, owner: u32, row: &[u32])
    requires { start + length row.now ≤ length cells.old.items }
    ensures { IsRowWritten start owner row.now cells.old.items cells.new.items }
{
    for (column, number) in row.iter().enumerate() {
        if *number != 0 {
            cells[start + column] = (owner, *number);
        }
    }
}

/// Replaces the columns by those in which a row has a number other than 0. The error is `Memory`.
pub(crate) fn list_columns(row: &[u32], columns: &mut Vec<usize>) -> Result<(), ParseTableError>
    ensures { OnOk result (AreColumns row.now columns.new.items) }
{
    columns.clear();
    for (column, number) in row.iter().enumerate() {
        if *number != 0 {
            columns.push(column)?;
        }
    }
    Ok(())
}
