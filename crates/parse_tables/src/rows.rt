//! Rows of numbers that share one list of cells.
mod adding;
mod reading;

ghost use Rattle.parse_tables.specs.Cells.{AreOwned, AreOwners};

/// Rows of numbers. The numbers of a row other than 0 are in cells that were free, and a cell has
/// the number of its owner. So rows lie over each other. Rows with equal numbers share their cells.
#[derive(Drop)]
pub(crate) struct Rows {
    // The first cell and the owner of each row.
    rows: Vec<(u32, u32)>,
    // The owner and the number of each cell. The owner of a free cell is 0.
    cells: Vec<(u32, u32)>,
    owners: u32,
    ghost owned: { AreOwners owners rows.items },
    ghost held: { AreOwned owners cells.items },
}
