//! The states on shortest paths from state 0 to states with conflicts.
ghost use Rattle.std.specs.Prelude.{◌≡◌, ◌<◌, ◌&&◌, ℕ, IfOk, false, get_or, length};
ghost use Rattle.table_pictures.specs.ConflictStates.{is_conflict_state};
ghost use Rattle.table_pictures.specs.EdgePairs.{edge_pairs};
ghost use Rattle.table_pictures.specs.Nodes.{has_conflict};
ghost use Rattle.table_pictures.specs.Paths.{AreEdgesBelow, AreOnShortest};

use crate::edge_pairs::edge_pairs;
use crate::nodes::is_in_conflict;
use crate::rounds::{flags_after, only_flag, turned};
use lalrpop_base::lr1_core::state::{Lr1Conflict, Lr1State, StateIndex};
use lalrpop_base::memory::OutOfMemory;
use std::alloc::Global;

/// The states on the shortest paths from state 0 to states with conflicts: the flags of their
/// numbers are set. `OutOfMemory` if an allocation fails.
pub fn states_to_conflicts<'grammar>(
    alloc: Global,
    states: &[Lr1State<'grammar>],
    conflicts: &[Lr1Conflict<'grammar>],
) -> Result<Vec<bool>, OutOfMemory>
    ensures counted { IfOk result (λ flags. length flags.items ≡ length states.now) }
    ensures exactly { IfOk result (λ flags. AreOnShortest (edge_pairs states.now) 0
        (is_conflict_state (length states.now) conflicts.now) flags.items) }
{
    if states.is_empty() {
        return Ok(Vec::new(alloc));
    }
    let edges = edge_pairs(alloc, states)?;
    let flags = on_shortest(alloc, &edges, states.len(), conflicts)?;
    Ok(flags)
}

// The flags of the numbers on shortest paths from number 0 to states with conflicts.
fn on_shortest(
    alloc: Global,
    edges: &[(usize, usize)],
    count: usize,
    conflicts: &[Lr1Conflict<'_>],
) -> Result<Vec<bool>, OutOfMemory>
    requires some { 0 < count }
    requires below { AreEdgesBelow count edges.now }
    ensures counted { IfOk result (λ flags. length flags.items ≡ count) }
    ensures exactly { IfOk result (λ flags. AreOnShortest edges.now 0
        (is_conflict_state count conflicts.now) flags.items) }
{
    let first = only_flag(alloc, count, 0)?;
    let mut crossed = Vec::new(alloc);
    let reached = flags_after(alloc, edges, first, count, &mut crossed)?;
    let found = ends_reached(alloc, &reached, conflicts)?;
    let back = turned(alloc, &crossed)?;
    let mut again = Vec::new(alloc);
    let flags = flags_after(alloc, &back, found, count, &mut again)?;
    Ok(flags)
}

// The flags of the numbers that are reached and have conflicts.
fn ends_reached(
    alloc: Global,
    reached: &[bool],
    conflicts: &[Lr1Conflict<'_>],
) -> Result<Vec<bool>, OutOfMemory>
    ensures counted { IfOk result (λ found. length found.items ≡ length reached.now) }
    ensures each { IfOk result (λ found. (k : ℕ) →
        k < length reached.now →
        get_or found.items k false ≡
        (get_or reached.now k false && has_conflict conflicts.now k)) }
{
    let mut found = Vec::new(alloc);
    for number in 0..reached.len() {
        found.push(reached[number] && is_in_conflict(StateIndex(number), conflicts))?;
    }
    Ok(found)
}
