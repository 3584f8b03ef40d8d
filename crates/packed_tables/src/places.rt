//! The places at which rows begin.

use crate::cells::{bits_from, put_bit, word_at};
use crate::error::PackError;
use std::alloc::Global;

/// The places that rows have taken so far.
#[derive(Drop)]
struct Places {
    // The bits of the places at which rows begin, and of those with a cell.
    begun: Vec<u64>,
    used: Vec<u64>,
    // So many words of `used` have all bits.
    full: usize,
}

/// Where each row begins, of which the columns and the numbers are given. Rows with more cells come
/// first. A row begins at the first place at which no other row begins, and from which on its cells
/// are free. The places are in the order of the rows.
pub(crate) fn starts_of(alloc: Global, rows: &[Vec<(u32, u32)>]) -> Result<Vec<usize>, PackError> {
    let order = longest_first(alloc, rows)?;
    let mut starts = Vec::new(alloc);
    starts.resize(rows.len(), 0)?;
    let mut places = Places {
        begun: Vec::new(alloc),
        used: Vec::new(alloc),
        full: 0,
    };
    for (_, number) in &order {
        if *number < rows.len() && *number < starts.len() {
            starts[*number] = places.add(&rows[*number])?;
        }
    }
    Ok(starts)
}

// The numbers of rows, those of the longest first, each after a number that falls with its length.
fn longest_first(
    alloc: Global,
    rows: &[Vec<(u32, u32)>],
) -> Result<Vec<(usize, usize)>, PackError> {
    let mut order = Vec::new(alloc);
    for (number, row) in rows.iter().enumerate() {
        order.push((usize::MAX - row.len(), number))?;
    }
    order.sort()?;
    Ok(order)
}

impl Places {
    // Takes the first place for a row.
    fn add(&mut self, cells: &[(u32, u32)]) -> Result<usize, PackError> {
        let start = self.start_for(cells);
        put_bit(&mut self.begun, start)?;
        for (column, _) in cells {
            put_bit(&mut self.used, start.wrapping_add(*column as usize))?;
        }
        self.full = full_from(&self.used, self.full);
        Ok(start)
    }

    // The first place for a row. Before the full words there is none, since the last cell is there.
    fn start_for(&self, cells: &[(u32, u32)]) -> usize {
        let last = match cells.last() {
            Some((column, _)) => *column as usize,
            None => usize::MAX,
        };
        let first = self.full.wrapping_mul(64).saturating_sub(last) / 64;
        for word in first..self.used.len() {
            let taken = self.taken_from(cells, word);
            if taken != u64::MAX {
                let rest = taken.trailing_ones() as usize;
                return word.wrapping_mul(64).wrapping_add(rest);
            }
        }
        self.used.len().wrapping_mul(64)
    }

    // The bits of a word of places at which the row can't begin.
    fn taken_from(&self, cells: &[(u32, u32)], word: usize) -> u64 {
        let mut taken = word_at(&self.begun, word);
        let first = word.wrapping_mul(64);
        for (column, _) in cells {
            taken |= bits_from(&self.used, first.wrapping_add(*column as usize));
        }
        taken
    }
}

// How many words from the first on have all bits, if so many have.
fn full_from(words: &[u64], full: usize) -> usize {
    for number in full..words.len() {
        if words[number] != u64::MAX {
            return number;
        }
    }
    words.len()
}
