//! The state of given items and transitions, all by number.
ghost use Rattle.std.specs.Prelude.{◌≡◌, ◌++◌, ◌<◌, ℕ, length, Contains, IfOk, OnOk};
ghost use Rattle.lalrpop_base.specs.Words.{AllDiffer, NumbersAscend};
ghost use Rattle.lalrpop_construction.specs.states.NumberedStates.{HasFinished, finished_at, finished_in};

use super::NumberedState;
use lalrpop_base::memory::OutOfMemory;
use lalrpop_base::numbers::Numbers;
use std::alloc::Global;

// Adds an item if it is finished.
fn add_if_finished(
    numbers: &Numbers<'_>,
    item: usize,
    finished: &mut Vec<usize>,
) -> Result<(), OutOfMemory>
    requires { item < length numbers.now.items.items }
    ensures { OnOk result
        (finished.new.items ≡ finished.old.items ++ finished_at numbers.now item) }
{
    if let Some(_symbol) = numbers.behind[item] {
        return Ok(());
    }
    finished.push(item)?;
    Ok(())
}

/// The numbers of those items that are finished, in order. `OutOfMemory` if an allocation fails.
pub fn finished_of(
    alloc: Global,
    numbers: &Numbers<'_>,
    items: &[usize],
) -> Result<Vec<usize>, OutOfMemory>
    requires { (k : ℕ) → Contains items.now k → k < length numbers.now.items.items }
    ensures listed { IfOk result
        (λ finished. finished.items ≡ finished_in numbers.now items.now) }
    ensures all { IfOk result (λ finished. HasFinished numbers.now items.now finished.items) }
    ensures once { AllDiffer items.now → IfOk result (λ finished. AllDiffer finished.items) }
{
    let mut finished = Vec::new(alloc);
    for item in items {
        add_if_finished(numbers, *item, &mut finished)?;
    }
    Ok(finished)
}

/// The state with the given items and transitions by number. The finished items are its reductions.
/// `OutOfMemory` if an allocation fails.
pub fn numbered_state(
    alloc: Global,
    numbers: &Numbers<'_>,
    items: &[usize],
    edges: &[(usize, usize)],
) -> Result<NumberedState, OutOfMemory>
    requires known { (k : ℕ) → Contains items.now k → k < length numbers.now.items.items }
    requires ascend { NumbersAscend edges.now }
    ensures items { IfOk result (λ state. state.items.items ≡ items.now) }
    ensures edges { IfOk result (λ state. state.edges.items ≡ edges.now) }
    ensures reductions { IfOk result
        (λ state. state.reductions.items ≡ finished_in numbers.now items.now) }
{
    Ok(NumberedState {
        items: Vec::from_slice(alloc, items)?,
        edges: Vec::from_slice(alloc, edges)?,
        reductions: finished_of(alloc, numbers, items)?,
    })
}
