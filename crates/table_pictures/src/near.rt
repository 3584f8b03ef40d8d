//! The states near a state, by the edges of paths.
ghost use Rattle.std.specs.Prelude.{◌≡◌, ◌<◌, ◌||◌, ℕ, IfOk, false, true, get_or, length, replicate, set};
ghost use Rattle.table_pictures.specs.EdgePairs.{edge_pairs};
ghost use Rattle.table_pictures.specs.Paths.{AreEdgesBelow, AreNear};
ghost use Rattle.table_pictures.specs.Rounds.{flags_after};

use crate::edge_pairs::edge_pairs;
use crate::rounds::{flag_at, flags_after, only_flag, turned};
use lalrpop_base::lr1_core::state::Lr1State;
use lalrpop_base::memory::OutOfMemory;
use std::alloc::Global;

/// The states from which, or to which, a path of at most `depth` edges leads: the flags of their
/// numbers are set. `OutOfMemory` if an allocation fails.
pub fn states_near(
    alloc: Global,
    states: &[Lr1State<'_>],
    number: usize,
    depth: usize,
) -> Result<Vec<bool>, OutOfMemory>
    requires number { number < length states.now }
    ensures counted { IfOk result (λ near. length near.items ≡ length states.now) }
    ensures exactly { IfOk result
        (λ near. AreNear (edge_pairs states.now) number depth near.items) }
{
    let edges = edge_pairs(alloc, states)?;
    let near = near_number(alloc, &edges, states.len(), number, depth)?;
    Ok(near)
}

// The flags of the numbers that are near a number.
fn near_number(
    alloc: Global,
    edges: &[(usize, usize)],
    count: usize,
    number: usize,
    depth: usize,
) -> Result<Vec<bool>, OutOfMemory>
    requires number { number < count }
    requires below { AreEdgesBelow count edges.now }
    ensures counted { IfOk result (λ near. length near.items ≡ count) }
    ensures exactly { IfOk result (λ near. AreNear edges.now number depth near.items) }
{
    let ahead = reached(alloc, edges, count, number, depth)?;
    let edges_back = turned(alloc, edges)?;
    let back = reached(alloc, &edges_back, count, number, depth)?;
    let near = either(alloc, &ahead, &back)?;
    Ok(near)
}

// The flags of the numbers to which paths of at most `depth` edges lead from a number.
fn reached(
    alloc: Global,
    edges: &[(usize, usize)],
    count: usize,
    number: usize,
    depth: usize,
) -> Result<Vec<bool>, OutOfMemory>
    requires number { number < count }
    ensures { IfOk result (λ flags. flags.items ≡
        flags_after edges.now (set (replicate count false) number true) depth) }
{
    let flags = only_flag(alloc, count, number)?;
    let mut crossed = Vec::new(alloc);
    flags_after(alloc, edges, flags, depth, &mut crossed)
}

// The flags that are set in one of two lists.
fn either(alloc: Global, first: &[bool], second: &[bool]) -> Result<Vec<bool>, OutOfMemory>
    ensures counted { IfOk result (λ flags. length flags.items ≡ length first.now) }
    ensures each { IfOk result (λ flags. (k : ℕ) →
        k < length first.now →
        get_or flags.items k false ≡ (get_or first.now k false || get_or second.now k false)) }
{
    let mut flags = Vec::new(alloc);
    for number in 0..first.len() {
        flags.push(first[number] || flag_at(second, number, false))?;
    }
    Ok(flags)
}
