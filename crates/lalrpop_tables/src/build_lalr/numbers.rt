//! The numbers of the merged states.
ghost use Rattle.std.specs.Prelude.{◌≡◌, IfOk, map};
ghost use Rattle.lalrpop_base.specs.Words.{dots, AreFirstNumbers, bare};
ghost use Rattle.lalrpop_tables.specs.collapse.Collapsed.{dots_in};

use lalrpop_base::kernel_set::KernelSet;
use lalrpop_base::lr1_core::item::{Lr0Item, Lr1Item};
use lalrpop_base::lr1_core::state::{Lr1State, StateIndex};
use lalrpop_base::memory::OutOfMemory;
use lalrpop_base::sequence::Sequence;
use std::alloc::Global;

// The items without their tokens.
fn bare_items<'grammar>(
    alloc: Global,
    items: &[Lr1Item<'grammar>],
) -> Result<Sequence<Lr0Item<'grammar>>, OutOfMemory>
    ensures { IfOk result (λ list. list ≡ map bare (dots items.now)) }
{
    let mut list = Sequence::new(alloc);
    for item in items {
        list.push(item.to_lr0())?;
    }
    Ok(list)
}

/// The number of each state after the merge. States with the same dotted productions share a
/// number. Numbers rise by first appearance.
pub(super) fn merged_numbers<'grammar>(
    alloc: Global,
    states: &[Lr1State<'grammar>],
) -> Result<Vec<usize>, OutOfMemory>
    ensures { IfOk result (λ numbers. AreFirstNumbers (map dots_in states.now) numbers.items) }
{
    let mut known = KernelSet::new(alloc);
    let mut numbers = Vec::new(alloc);
    for state in states {
        let items = bare_items(alloc, &state.items.vec)?;
        let StateIndex(number) = known.add_state(items)?;
        numbers.push(number)?;
    }
    Ok(numbers)
}
