//! The edges of the follow graph.
ghost use Rattle.std.specs.Prelude.{length, IfOk, OnOk};
ghost use Rattle.lalrpop_follow_sets.specs.follow_sets.FollowNodes.{IsPass};
ghost use Rattle.lalrpop_follow_sets.specs.follow_sets.FollowWalks.{AreEmptyLists, AreIncludes, AreLookbacks};

use super::lookback::{Lookback, walk_all};
use super::pass::Pass;
use lalrpop_base::memory::OutOfMemory;
use std::alloc::Global;

/// For each node the nodes that include its follow set. Each walk from a node also adds this node
/// to `lookback`, at the state and the finished item in which the walk ends.
pub(super) fn includes(
    alloc: Global,
    pass: &Pass<'_, '_>,
    lookback: &mut Lookback,
) -> Result<Vec<Vec<usize>>, OutOfMemory>
    requires pass { IsPass pass.now }
    requires empty { AreEmptyLists (length pass.now.states.now) lookback.old.items }
    ensures edges { IfOk result (λ edges. AreIncludes pass.now edges.items) }
    ensures noted { OnOk result (AreLookbacks pass.now lookback.new.items) }
{
    let pairs = &pass.nodes.pairs;
    let mut edges = Vec::with_capacity(alloc, pairs.len())?;
    for node in 0..pairs.len() {
        let (state, symbol) = pairs[node];
        let mut ends = Vec::new(alloc);
        walk_all(
            pass,
            node,
            state,
            pass.expansions(symbol),
            &mut ends,
            lookback,
        )?;
        edges.push(ends)?;
    }
    Ok(edges)
}
