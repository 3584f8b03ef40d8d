//! The items of states of the code, of items by number.
ghost use Rattle.std.specs.Prelude.{◌≡◌, IfOk, map};
ghost use Rattle.table_numbers.specs.Items.{item_at, item_parts, list_at};
ghost use Rattle.table_numbers.specs.Made.{borrowed};

use crate::error::NumbersError;
use crate::tables::NumberedItem;
use lalrpop_base::lookahead::token_set::TokenSet;
use lalrpop_base::lr1_core::item::{Item, Lr1Item};
use lalrpop_base::repr::Production;
use lalrpop_base::sequence::Sequence;
use std::alloc::Global;

/// The items of the state at a place. There are none if there is no list for it.
#[tactic(auto, using(crate::proofs::ItemLemmas::list_past, crate::proofs::ItemLemmas::list_there))]
pub(crate) fn listed_items<'grammar>(
    alloc: Global,
    productions: &[&'grammar Production],
    sets: &[TokenSet],
    place: usize,
    lists: &[Sequence<NumberedItem>],
) -> Result<Vec<Lr1Item<'grammar>>, NumbersError>
    ensures { IfOk result (λ items. map (item_at (borrowed productions.now) sets.now)
        (list_at lists.now place) ≡ map item_parts items.items) }
{
    if place >= lists.len() {
        return Ok(Vec::new(alloc));
    }
    make_items(alloc, productions, sets, place, lists[place].as_slice())
}

// The items of a list, of the state at a place.
fn make_items<'grammar>(
    alloc: Global,
    productions: &[&'grammar Production],
    sets: &[TokenSet],
    place: usize,
    list: &[NumberedItem],
) -> Result<Vec<Lr1Item<'grammar>>, NumbersError>
    ensures { IfOk result (λ items. map (item_at (borrowed productions.now) sets.now) list.now
        ≡ map item_parts items.items) }
{
    let mut items = Vec::with_capacity(alloc, list.len())?;
    for item in list {
        items.push(make_item(alloc, productions, sets, place, item)?)?;
    }
    Ok(items)
}

// An item of the state at a place. The error is `State` if there is no production or no token set
// with its number, or if the production has fewer symbols than are before the dot.
fn make_item<'grammar>(
    alloc: Global,
    productions: &[&'grammar Production],
    sets: &[TokenSet],
    place: usize,
    item: &NumberedItem,
) -> Result<Lr1Item<'grammar>, NumbersError>
    ensures { IfOk result (λ made.
        item_at (borrowed productions.now) sets.now item.now ≡ item_parts made) }
{
    let Some(production) = productions.get(item.production as usize) else {
        return Err(NumbersError::State(place));
    };
    let Some(tokens) = sets.get(item.lookahead as usize) else {
        return Err(NumbersError::State(place));
    };
    let production = *production;
    let index = item.dot as usize;
    if index > production.symbols.len() {
        return Err(NumbersError::State(place));
    }
    Ok(Item {
        production,
        index,
        lookahead: tokens.clone(alloc)?,
    })
}
