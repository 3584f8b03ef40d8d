//! Packs rows one after the other.
ghost use Rattle.std.specs.Prelude.{◌≡◌, [], OnOk};
ghost use Rattle.parse_tables.specs.Rows.{AddsRow};

use crate::cells::list_columns;
use crate::error::ParseTableError;
use crate::rows::Rows;
use std::alloc::Global;
use std::collections::BTreeMap;

/// Rows, and what is kept to find equal ones while they are added.
#[derive(Drop)]
pub(crate) struct Packing {
    rows: Rows,
    // An earlier row for each sum of the numbers of rows.
    known: BTreeMap<u64, usize>,
    columns: Vec<usize>,
}

impl Packing {
    /// Without a row.
    pub(crate) fn new(alloc: Global) -> Packing
        ensures { result.rows.rows.items ≡ [] }
    {
        Packing {
            rows: Rows::new(alloc),
            known: BTreeMap::new(alloc),
            columns: Vec::new(alloc),
        }
    }

    /// Adds a row after the others. The errors are `TooLarge` and `Memory`.
    pub(crate) fn add(&mut self, row: &[u32]) -> Result<(), ParseTableError>
        ensures { OnOk result (AddsRow self.old.rows self.new.rows row.now) }
    {
        let sum = sum_of(row);
        if let Some(number) = self.known.get(&sum).copied() {
            if number < self.rows.len() && self.rows.is_row(number, row) {
                return self.rows.repeat(number, row);
            }
        }
        self.known.insert(sum, self.rows.len())?;
        list_columns(row, &mut self.columns)?;
        self.rows.add(row, &self.columns)
    }

    /// The rows.
    pub(crate) fn into_rows(self) -> Rows
        ensures { result ≡ self.rows }
    {
        self.rows
    }
}

// A sum of numbers that mostly differs for other numbers.
fn sum_of(numbers: &[u32]) -> u64 {
    let mut sum: u64 = 0;
    for number in numbers {
        sum = (sum ^ u64::from(*number)).wrapping_mul(0x100_0000_01b3);
    }
    sum
}
