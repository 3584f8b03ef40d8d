//! A list of values for each number.
ghost use Rattle.std.specs.Prelude.{◌≡◌, ◌<◌, length, OnOk};
ghost use Rattle.lalrpop_state_graph.specs.graphs.StateGraph.{AreSameLists, IsChangedAt, IsListedAt, list_at, nothing};

use lalrpop_base::memory::OutOfMemory;
use std::alloc::Global;

/// The values of a number: none if it has no list.
pub(super) fn list_of<X>(lists: &[Vec<X>], number: usize) -> &[X]
    ensures { result.now ≡ list_at lists.now number }
{
    if number < lists.len() {
        return lists[number].as_slice();
    }
    &[]
}

/// Adds a value after the others of a number. Each number up to it gets a list, if it has none.
/// `OutOfMemory` if an allocation fails.
#[tactic(auto, using(crate::proofs::theory::graphs::StateGraphs::listed_more))]
pub(super) fn push_at<X: Drop>(
    alloc: Global,
    lists: &mut Vec<Vec<X>>,
    number: usize,
    value: X,
) -> Result<(), OutOfMemory>
    ensures { OnOk result (IsListedAt number value lists.old.items lists.new.items) }
{
    grow(alloc, lists, number)?;
    lists[number].push(value)?;
    Ok(())
}

/// Removes all values of a number.
pub(super) fn clear_at<X: Drop>(lists: &mut Vec<Vec<X>>, number: usize)
    ensures { IsChangedAt number nothing lists.old.items lists.new.items }
{
    let count = lists.len();
    if number >= count {
        return;
    }
    lists[number].clear();
}

// Gives an empty list to each number up to the given one that has none.
fn grow<X: Drop>(alloc: Global, lists: &mut Vec<Vec<X>>, number: usize) -> Result<(), OutOfMemory>
    ensures same { AreSameLists lists.old.items lists.new.items }
    ensures there { OnOk result (number < length lists.new.items) }
{
    while lists.len() <= number {
        lists.push(Vec::new(alloc))?;
    }
    Ok(())
}
