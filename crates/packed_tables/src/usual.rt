//! The number that most columns or most rows have.

use crate::cells::width_of;
use crate::error::PackError;
use crate::lookup::number_at;
use std::alloc::Global;

/// The usual reduction of each state: the one with the most terminals, and with the least number of
/// these. It is 0 if the state has none.
pub(crate) fn usual_actions(
    alloc: Global,
    actions: &[Vec<u32>],
    reductions: u32,
) -> Result<Vec<u32>, PackError> {
    let mut counts = Vec::new(alloc);
    counts.resize(reductions as usize + 1, 0)?;
    let mut usual = Vec::new(alloc);
    for row in actions {
        usual.push(usual_of(row, &mut counts))?;
    }
    Ok(usual)
}

/// The usual goto of each nonterminal: the state to which most states lead, and the least of these.
/// It is 0 if no state has a goto on the nonterminal.
pub(crate) fn usual_gotos(alloc: Global, gotos: &[Vec<u32>]) -> Result<Vec<u32>, PackError> {
    let mut counts = Vec::new(alloc);
    counts.resize(gotos.len(), 0)?;
    let mut column = Vec::new(alloc);
    let mut usual = Vec::new(alloc);
    for nonterminal in 0..width_of(gotos) {
        list_column(gotos, nonterminal, &mut column)?;
        usual.push(usual_of(&column, &mut counts))?;
    }
    Ok(usual)
}

// Replaces a list by the numbers of a column.
fn list_column(rows: &[Vec<u32>], number: usize, column: &mut Vec<u32>) -> Result<(), PackError> {
    column.clear();
    for row in rows {
        column.push(number_at(row, number))?;
    }
    Ok(())
}

// The number other than 0 that comes most often, and the least of these. Only numbers with a count
// are counted. All counts are 0, and are so again at the end.
fn usual_of(numbers: &[u32], counts: &mut [u32]) -> u32 {
    count(numbers, counts);
    let usual = most_of(numbers, counts);
    clear(numbers, counts);
    usual
}

fn count(numbers: &[u32], counts: &mut [u32]) {
    for number in numbers {
        let number = *number as usize;
        if number < counts.len() {
            counts[number] = counts[number].saturating_add(1);
        }
    }
}

fn most_of(numbers: &[u32], counts: &[u32]) -> u32 {
    let mut usual = 0;
    let mut most = 0;
    for number in numbers {
        let count = number_at(counts, *number as usize);
        if *number != 0 && (count > most || (count == most && *number < usual)) {
            usual = *number;
            most = count;
        }
    }
    usual
}

fn clear(numbers: &[u32], counts: &mut [u32]) {
    for number in numbers {
        let number = *number as usize;
        if number < counts.len() {
            counts[number] = 0;
        }
    }
}
