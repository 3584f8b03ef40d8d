//! LR(0) states with all tokens.
ghost use Rattle.std.specs.Prelude.{◌≡◌, IfOk, map};
ghost use Rattle.std.specs.List.{AllZip};
ghost use Rattle.lalrpop_lane_states.specs.lane_states.LaneStates.{IsPromoted, promoted_item, promoted_reduction};

use lalrpop_base::lookahead::nil::Nil;
use lalrpop_base::lookahead::token_set::TokenSet;
use lalrpop_base::lr1_core::item::{Lr0Item, Lr1Item};
use lalrpop_base::lr1_core::lr0::Lr0State;
use lalrpop_base::lr1_core::state::{Items, Lr1State, State};
use lalrpop_base::memory::OutOfMemory;
use lalrpop_base::repr::Production;
use std::alloc::Global;

// The items, each with the tokens `all`.
fn promote_items<'grammar>(
    alloc: Global,
    items: &[Lr0Item<'grammar>],
    all: &TokenSet,
) -> Result<Vec<Lr1Item<'grammar>>, OutOfMemory>
    ensures { IfOk result (λ list. list.items ≡ map (promoted_item all.now) items.now) }
{
    let mut list = Vec::new(alloc);
    for item in items {
        list.push(item.with_lookahead(all.clone(alloc)?))?;
    }
    Ok(list)
}

// The reductions, each with the tokens `all`.
fn promote_reductions<'grammar>(
    alloc: Global,
    reductions: &[(Nil, &'grammar Production)],
    all: &TokenSet,
) -> Result<Vec<(TokenSet, &'grammar Production)>, OutOfMemory>
    ensures { IfOk result (λ list. list.items ≡ map (promoted_reduction all.now) reductions.now) }
{
    let mut list = Vec::new(alloc);
    for reduction in reductions {
        list.push((all.clone(alloc)?, reduction.1))?;
    }
    Ok(list)
}

// A state whose items and reductions have the tokens `all`.
fn promote_state<'grammar>(
    alloc: Global,
    state: Lr0State<'grammar>,
    all: &TokenSet,
) -> Result<Lr1State<'grammar>, OutOfMemory>
    ensures { IfOk result (IsPromoted all.now state.entry) }
{
    let State {
        index,
        items,
        shifts,
        reductions,
        gotos,
    } = state;
    Ok(State {
        index,
        items: Items {
            vec: promote_items(alloc, &items.vec, all)?,
        },
        shifts,
        reductions: promote_reductions(alloc, &reductions, all)?,
        gotos,
    })
}

/// The states, whose items and reductions have the tokens `all`.
pub(super) fn promote_states<'grammar>(
    alloc: Global,
    states: Vec<Lr0State<'grammar>>,
    all: &TokenSet,
) -> Result<Vec<Lr1State<'grammar>>, OutOfMemory>
    ensures { IfOk result
        (λ promoted. AllZip (IsPromoted all.now) states.entry.items promoted.items) }
{
    let mut promoted = Vec::new(alloc);
    for state in states {
        promoted.push(promote_state(alloc, state, all)?)?;
    }
    Ok(promoted)
}
