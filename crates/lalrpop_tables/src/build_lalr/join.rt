//! The join of a state with another that has the same dotted productions.
ghost use Rattle.std.specs.Prelude.{◌≡◌, OnOk};
ghost use Rattle.lalrpop_base.specs.Words.{joined_item, joined_at, joined_items, IsJoined};
ghost use Rattle.lalrpop_states.specs.collapse.Merging.{Overlays};

use lalrpop_base::lr1_core::item::Lr1Item;
use lalrpop_base::lr1_core::state::{Lr1State, State, StateIndex};
use lalrpop_base::memory::OutOfMemory;
use std::collections::BTreeMap;

// Adds the tokens of another item.
fn join_item<'grammar>(
    item: &mut Lr1Item<'grammar>,
    other: &Lr1Item<'grammar>,
) -> Result<(), OutOfMemory>
    ensures { OnOk result (item.new ≡ joined_item item.old other.now) }
{
    item.lookahead.union_with(&other.lookahead)?;
    Ok(())
}

// Adds the tokens of another item to the one at the place, if the list has that place.
fn join_at<'grammar>(
    items: &mut [Lr1Item<'grammar>],
    place: usize,
    other: &Lr1Item<'grammar>,
) -> Result<(), OutOfMemory>
    ensures { OnOk result (items.new ≡ joined_at items.old place other.now) }
{
    if place < items.len() {
        join_item(&mut items[place], other)?;
    }
    Ok(())
}

// Adds the tokens of each item to the item at the same place.
fn join_items<'grammar>(
    items: &mut [Lr1Item<'grammar>],
    others: &[Lr1Item<'grammar>],
) -> Result<(), OutOfMemory>
    ensures { OnOk result (items.new ≡ joined_items items.old others.now) }
{
    for (place, other) in others.iter().enumerate() {
        join_at(items, place, other)?;
    }
    Ok(())
}

// Adds the transitions of another state. They replace those by the same symbols.
fn join_edges<K: Ord + Drop>(
    edges: &mut BTreeMap<K, StateIndex>,
    mut others: BTreeMap<K, StateIndex>,
) -> Result<(), OutOfMemory>
    ensures { OnOk result (Overlays K.cmp edges.old others edges.new) }
{
    edges.append(&mut others)?;
    Ok(())
}

/// Adds the tokens, transitions and reductions of another state.
pub(super) fn join_state<'grammar>(
    merged: &mut Lr1State<'grammar>,
    state: Lr1State<'grammar>,
) -> Result<(), OutOfMemory>
    ensures { OnOk result (IsJoined merged.old state.entry merged.new) }
{
    let State {
        items,
        shifts,
        mut reductions,
        gotos,
        ..
    } = state;
    join_items(&mut merged.items.vec, &items.vec)?;
    join_edges(&mut merged.shifts, shifts)?;
    join_edges(&mut merged.gotos, gotos)?;
    merged.reductions.append(&mut reductions)?;
    Ok(())
}
