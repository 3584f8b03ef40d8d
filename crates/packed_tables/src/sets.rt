//! The sets of terminals on which states make their usual reductions.

use crate::cells::{small, width_of};
use crate::error::PackError;
use std::alloc::Global;
use std::collections::BTreeMap;

/// The number of the set of each state, the bytes of all sets, and how many bytes a set has.
#[derive(Drop)]
pub(crate) struct Sets {
    pub(crate) set: Vec<u32>,
    pub(crate) sets: Vec<u8>,
    pub(crate) bytes: u32,
}

/// The sets, each once, in the order of their first states. A state without a usual reduction has
/// set 0. There is at least one set.
pub(crate) fn pack_sets(
    alloc: Global,
    actions: &[Vec<u32>],
    usual: &[u32],
) -> Result<Sets, PackError> {
    let bytes = width_of(actions).saturating_sub(1) / 8 + 1;
    let mut made = Sets {
        set: Vec::new(alloc),
        sets: Vec::new(alloc),
        bytes: small(bytes)?,
    };
    let mut known: BTreeMap<Vec<u8>, u32> = BTreeMap::new(alloc);
    for (row, usual) in actions.iter().zip(usual) {
        add_set(alloc, row, *usual, bytes, &mut known, &mut made)?;
    }
    if made.sets.is_empty() {
        made.sets.resize(bytes, 0)?;
    }
    Ok(made)
}

// Adds the set of the next state.
fn add_set(
    alloc: Global,
    row: &[u32],
    usual: u32,
    bytes: usize,
    known: &mut BTreeMap<Vec<u8>, u32>,
    made: &mut Sets,
) -> Result<(), PackError> {
    if usual == 0 {
        made.set.push(0)?;
        return Ok(());
    }
    let set = set_of(alloc, row, usual, bytes)?;
    if let Some(number) = known.get(&set).copied() {
        made.set.push(number)?;
        return Ok(());
    }
    let number = small(known.len())?;
    made.sets.extend_from_slice(&set)?;
    made.set.push(number)?;
    known.insert(set, number)?;
    Ok(())
}

// The bits of the terminals of a row with a number.
fn set_of(alloc: Global, row: &[u32], number: u32, bytes: usize) -> Result<Vec<u8>, PackError> {
    let mut set = Vec::new(alloc);
    set.resize(bytes, 0)?;
    for (terminal, action) in row.iter().enumerate() {
        if *action == number && terminal / 8 < set.len() {
            set[terminal / 8] |= 1 << (terminal % 8);
        }
    }
    Ok(set)
}
