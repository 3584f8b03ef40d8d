//! Looks up all actions and gotos in packed arrays.
ghost use Rattle.std.specs.Prelude.{◌≡◌, ◌<◌, ℕ, IsTrue, length, slice_index};
ghost use Rattle.packed_tables.specs.Packed.{ArePacked, AreRows, HasAction, HasActions, HasGoto, HasGotos, IsUsual, goto_or, row_at};

use crate::lookup::number_at;
use crate::packed::{PackedRows, PackedTables};

/// Whether arrays have the actions and the gotos of states.
pub(crate) fn are_packed(packed: &PackedTables, actions: &[Vec<u32>], gotos: &[Vec<u32>]) -> bool
    ensures { IsTrue result → ArePacked packed.now actions.now gotos.now }
{
    if !have_lengths(packed, actions.len(), gotos.len()) {
        return false;
    }
    if !have_usual(&packed.goto_usual, gotos) {
        return false;
    }
    if !have_actions(packed, actions) {
        return false;
    }
    have_gotos(packed, gotos)
}

// Whether the arrays have a number for each state.
fn have_lengths(packed: &PackedTables, actions: usize, gotos: usize) -> bool
    ensures actions { IsTrue result → AreRows packed.now.actions actions }
    ensures gotos { IsTrue result → AreRows packed.now.gotos gotos }
    ensures reductions { IsTrue result → length packed.now.reduction.items ≡ actions }
    ensures sets { IsTrue result → length packed.now.set.items ≡ actions }
{
    if !are_rows(&packed.actions, actions) {
        return false;
    }
    if !are_rows(&packed.gotos, gotos) {
        return false;
    }
    if packed.reduction.len() != actions {
        return false;
    }
    packed.set.len() == actions
}

// Whether there are so many rows, and each place has a column and a number.
fn are_rows(rows: &PackedRows, count: usize) -> bool
    ensures { IsTrue result → AreRows rows.now count }
{
    if rows.row.len() != count {
        return false;
    }
    rows.cell.len() == rows.column.len()
}

// Whether each state has its actions.
fn have_actions(packed: &PackedTables, actions: &[Vec<u32>]) -> bool
    ensures { IsTrue result → (state : ℕ) → state < length actions.now →
        HasActions packed.now state (row_at actions.now state) }
{
    for (state, row) in actions.iter().enumerate() {
        let Ok(state) = u32::try_from(state) else {
            return false;
        };
        if !has_actions(packed, state, row) {
            return false;
        }
    }
    true
}

// Whether a state has the actions of a row.
fn has_actions(packed: &PackedTables, state: u32, row: &[u32]) -> bool
    ensures { IsTrue result → HasActions packed.now state row.now }
{
    for (terminal, action) in row.iter().enumerate() {
        let Ok(terminal) = u32::try_from(terminal) else {
            return false;
        };
        if !has_action(packed, state, terminal, *action) {
            return false;
        }
    }
    true
}

// Whether a state has an action, and its lookup stays in the arrays.
fn has_action(packed: &PackedTables, state: u32, terminal: u32, action: u32) -> bool
    ensures { IsTrue result → HasAction packed.now state terminal action }
{
    if packed.actions.place(state, terminal) >= packed.actions.column.len() {
        return false;
    }
    if packed.set_place(state, terminal) >= packed.sets.len() {
        return false;
    }
    packed.action(state, terminal) == action
}

// Whether each state has its gotos.
fn have_gotos(packed: &PackedTables, gotos: &[Vec<u32>]) -> bool
    ensures { IsTrue result → (state : ℕ) → state < length gotos.now →
        HasGotos packed.now state (row_at gotos.now state) }
{
    for (state, row) in gotos.iter().enumerate() {
        let Ok(state) = u32::try_from(state) else {
            return false;
        };
        if !has_gotos(packed, state, row) {
            return false;
        }
    }
    true
}

// Whether a state has the gotos of a row.
fn has_gotos(packed: &PackedTables, state: u32, row: &[u32]) -> bool
    ensures { IsTrue result → HasGotos packed.now state row.now }
{
    for (nonterminal, goto) in row.iter().enumerate() {
        let Ok(nonterminal) = u32::try_from(nonterminal) else {
            return false;
        };
        if !has_goto(packed, state, nonterminal, *goto) {
            return false;
        }
    }
    true
}

// Whether a state has a goto, and its lookup stays in the arrays.
fn has_goto(packed: &PackedTables, state: u32, nonterminal: u32, goto: u32) -> bool
    ensures { IsTrue result → HasGoto packed.now state nonterminal goto }
{
    if packed.gotos.place(state, nonterminal) >= packed.gotos.column.len() {
        return false;
    }
    if nonterminal as usize >= packed.goto_usual.len() {
        return false;
    }
    let usual = number_at(&packed.goto_usual, nonterminal as usize);
    packed.goto(state, nonterminal) == goto_or(goto, usual)
}

// A goto, or the usual one if it is 0.
fn goto_or(goto: u32, usual: u32) -> u32
    ensures { result ≡ goto_or goto usual }
{
    if goto == 0 { usual } else { goto }
}

// Whether each usual goto is one of a state.
fn have_usual(usual: &[u32], gotos: &[Vec<u32>]) -> bool
    ensures { IsTrue result → (nonterminal : ℕ) → IsUsual usual.now gotos.now nonterminal }
{
    for (nonterminal, goto) in usual.iter().enumerate() {
        if !is_usual(*goto, gotos, nonterminal) {
            return false;
        }
    }
    true
}

// Whether a usual goto of a nonterminal is 0, or a state has a goto on the nonterminal.
fn is_usual(usual: u32, gotos: &[Vec<u32>], nonterminal: usize) -> bool
    ensures { IsTrue result → ((state : ℕ) →
        slice_index (row_at gotos.now state) nonterminal ≡ 0) → usual ≡ 0 }
{
    if usual == 0 {
        return true;
    }
    has_any(gotos, nonterminal)
}

// Whether a state has a goto on a nonterminal.
fn has_any(gotos: &[Vec<u32>], nonterminal: usize) -> bool
    ensures { IsTrue result → ((state : ℕ) →
        slice_index (row_at gotos.now state) nonterminal ≡ 0) → ⊥ }
{
    for row in gotos {
        if number_at(row, nonterminal) != 0 {
            return true;
        }
    }
    false
}
