//! The edges of states, as pairs of the numbers of states.
ghost use Rattle.std.specs.Prelude.{◌≡◌, ◌++◌, IfOk, OnOk, length};
ghost use Rattle.std.specs.List.{flat_map};
ghost use Rattle.table_pictures.specs.EdgePairs.{edge_pair, edge_pairs, state_pairs, target_pairs};
ghost use Rattle.table_pictures.specs.Paths.{AreEdgesBelow};

use lalrpop_base::lr1_core::state::{Lr1State, StateIndex};
use lalrpop_base::memory::OutOfMemory;
use std::alloc::Global;
use std::collections::BTreeMap;

/// The edges of states between two of them, each as a pair of numbers.
pub(crate) fn edge_pairs(
    alloc: Global,
    states: &[Lr1State<'_>],
) -> Result<Vec<(usize, usize)>, OutOfMemory>
    ensures pairs { IfOk result (λ pairs. pairs.items ≡ edge_pairs states.now) }
    ensures below { IfOk result (λ pairs. AreEdgesBelow (length states.now) pairs.items) }
{
    let mut pairs = Vec::new(alloc);
    for state in states {
        push_state(&mut pairs, state, states.len())?;
    }
    Ok(pairs)
}

// Appends the edges of a state.
fn push_state(
    pairs: &mut Vec<(usize, usize)>,
    state: &Lr1State<'_>,
    limit: usize,
) -> Result<(), OutOfMemory>
    ensures { OnOk result
        (pairs.new.items ≡ pairs.old.items ++ state_pairs limit state.now) }
{
    push_targets(pairs, state.index.0, &state.shifts, limit)?;
    push_targets(pairs, state.index.0, &state.gotos, limit)?;
    Ok(())
}

// Appends the edges by which the targets follow a state.
fn push_targets<K: Ord>(
    pairs: &mut Vec<(usize, usize)>,
    from: usize,
    targets: &BTreeMap<K, StateIndex>,
    limit: usize,
) -> Result<(), OutOfMemory>
    ensures { OnOk result (pairs.new.items ≡ pairs.old.items ++ target_pairs limit from
        targets.now.entries) }
{
    for (_, target) in targets.iter() {
        push_pair(pairs, from, *target, limit)?;
    }
    Ok(())
}

// Appends an edge, if both numbers are below the limit.
fn push_pair(
    pairs: &mut Vec<(usize, usize)>,
    from: usize,
    target: StateIndex,
    limit: usize,
) -> Result<(), OutOfMemory>
    ensures { OnOk result (pairs.new.items ≡ pairs.old.items ++ edge_pair limit from target) }
{
    if from < limit && target.0 < limit {
        pairs.push((from, target.0))?;
    }
    Ok(())
}
