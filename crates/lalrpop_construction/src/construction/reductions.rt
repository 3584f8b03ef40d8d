//! The reductions of a state.
ghost use Rattle.std.specs.Prelude.{◌≡◌, ◌++◌, ◌∷◌, [], IfOk, OnOk, map};
ghost use Rattle.lalrpop_base.specs.Words.{reductions_of, seen_reduction};

use lalrpop_base::lookahead::Lookahead;
use lalrpop_base::lr1_core::item::Item;
use lalrpop_base::memory::OutOfMemory;
use lalrpop_base::repr::Production;
use std::alloc::Global;

// Adds a reduction by an item after the others, if the item is finished.
fn push_finished<'grammar, L: Lookahead>(
    alloc: Global,
    item: &Item<'grammar, L>,
    reductions: &mut Vec<(L, &'grammar Production)>,
) -> Result<(), OutOfMemory>
    ensures { OnOk result (map seen_reduction reductions.new.items ≡ map seen_reduction reductions.old.items ++
        reductions_of (item.now ∷ [])) }
{
    if item.can_reduce() {
        let tokens = item.lookahead.copy(alloc)?;
        reductions.push((tokens, item.production))?;
    }
    Ok(())
}

/// The reductions of a state with the items: the lookaheads and productions of its finished items,
/// in order. `OutOfMemory` if an allocation fails.
pub fn reductions<'grammar, L: Lookahead>(
    alloc: Global,
    items: &[Item<'grammar, L>],
) -> Result<Vec<(L, &'grammar Production)>, OutOfMemory>
    ensures { IfOk result (λ list. map seen_reduction list.items ≡ reductions_of items.now) }
{
    let mut reductions = Vec::new(alloc);
    for item in items {
        push_finished(alloc, item, &mut reductions)?;
    }
    reductions.shrink_to_fit();
    Ok(reductions)
}
