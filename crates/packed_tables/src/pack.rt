//! Packs the rows of states.
ghost use Rattle.std.specs.Prelude.{IfOk};
ghost use Rattle.packed_tables.specs.Packed.{ArePacked};

use crate::cells::{small, width_of};
use crate::check::are_packed;
use crate::error::PackError;
use crate::lookup::number_at;
use crate::packed::{PackedRows, PackedTables};
use crate::rows::DistinctRows;
use crate::sets::{Sets, pack_sets};
use crate::usual::{usual_actions, usual_gotos};
use std::alloc::Global;

/// Packs the actions and the gotos of states, of which each has a row of both. The numbers of
/// reductions are those from 1 to `reductions`, and 0 is no action and no goto. All rows of one
/// kind have the same length.
pub fn pack(
    alloc: Global,
    actions: &[Vec<u32>],
    reductions: u32,
    gotos: &[Vec<u32>],
) -> Result<PackedTables, PackError>
    ensures { IfOk result (λ p. ArePacked p actions.now gotos.now) }
{
    let packed = make(alloc, actions, reductions, gotos)?;
    if !are_packed(&packed, actions, gotos) {
        return Err(PackError::Wrong);
    }
    Ok(packed)
}

// The arrays of the rows of states.
fn make(
    alloc: Global,
    actions: &[Vec<u32>],
    reductions: u32,
    gotos: &[Vec<u32>],
) -> Result<PackedTables, PackError> {
    let reduction = usual_actions(alloc, actions, reductions)?;
    let goto_usual = usual_gotos(alloc, gotos)?;
    let Sets { set, sets, bytes } = pack_sets(alloc, actions, &reduction)?;
    Ok(PackedTables {
        actions: pack_actions(alloc, actions, &reduction)?,
        reduction,
        set,
        sets,
        set_bytes: bytes,
        gotos: pack_gotos(alloc, gotos, &goto_usual)?,
        goto_usual,
    })
}

// The cells of the actions that are not the usual ones of their states.
fn pack_actions(
    alloc: Global,
    actions: &[Vec<u32>],
    usual: &[u32],
) -> Result<PackedRows, PackError> {
    let mut rows = DistinctRows::new(alloc);
    for (row, usual) in actions.iter().zip(usual) {
        rows.add(actions_but(alloc, row, *usual)?)?;
    }
    rows.pack(width_of(actions))
}

// The columns and the numbers of the actions of a row that are not the usual one.
fn actions_but(alloc: Global, row: &[u32], usual: u32) -> Result<Vec<(u32, u32)>, PackError> {
    let mut cells = Vec::new(alloc);
    for (terminal, action) in row.iter().enumerate() {
        if *action != 0 && *action != usual {
            cells.push((small(terminal)?, *action))?;
        }
    }
    Ok(cells)
}

// The cells of the gotos that are not the usual ones of their nonterminals.
fn pack_gotos(alloc: Global, gotos: &[Vec<u32>], usual: &[u32]) -> Result<PackedRows, PackError> {
    let mut rows = DistinctRows::new(alloc);
    for row in gotos {
        rows.add(gotos_but(alloc, row, usual)?)?;
    }
    rows.pack(width_of(gotos))
}

// The columns and the numbers of the gotos of a row that are not the usual ones.
fn gotos_but(alloc: Global, row: &[u32], usual: &[u32]) -> Result<Vec<(u32, u32)>, PackError> {
    let mut cells = Vec::new(alloc);
    for (nonterminal, goto) in row.iter().enumerate() {
        if *goto != 0 && *goto != number_at(usual, nonterminal) {
            cells.push((small(nonterminal)?, *goto))?;
        }
    }
    Ok(cells)
}
