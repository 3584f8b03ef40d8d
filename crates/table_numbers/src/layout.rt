//! The numbers of tables by number.
ghost use Rattle.std.specs.Prelude.{◌≡◌, ◌+◌, ◌++◌, ◌∷◌, [], IfOk, OnOk, length};
ghost use Rattle.std.specs.List.{flat_map};
ghost use Rattle.table_numbers.specs.Layout.{counted_pairs, first_set_place, head_of, item_block, item_numbers, numbers_of, pair_numbers, places_from, set_block, state_block};

use crate::error::NumbersError;
use crate::tables::{MAGIC, NumberedItem, NumberedState, NumberedTables, VERSION};
use lalrpop_base::sequence::Sequence;
use std::alloc::Global;

impl NumberedTables {
    /// The numbers of the tables. The errors are `TooLarge` and `Memory`.
    pub fn to_numbers(&self, alloc: Global) -> Result<Vec<u32>, NumbersError>
        ensures { IfOk result (λ numbers. numbers.items ≡ numbers_of self.now) }
    {
        let sets = self.sets.as_slice();
        let states = self.states.as_slice();
        let lists = self.items.as_slice();
        let mut out = Vec::new(alloc);
        push_head(&mut out, self)?;
        let place = push_set_places(&mut out, sets, first_place(self)?)?;
        let list_place = push_state_places(&mut out, states, place)?;
        let end = push_list_places(&mut out, lists, list_place)?;
        out.reserve((end as usize).saturating_sub(out.len()))?;
        push_pairs(&mut out, self.productions.as_slice())?;
        push_sets(&mut out, sets)?;
        push_states(&mut out, states)?;
        push_lists(&mut out, lists)?;
        Ok(out)
    }
}

/// A number of 32 bits. The error is `TooLarge`.
pub(crate) fn number_of(number: usize) -> Result<u32, NumbersError>
    ensures { IfOk result (λ n. n ≡ number) }
{
    match u32::try_from(number) {
        Ok(number) => Ok(number),
        Err(_) => Err(NumbersError::TooLarge),
    }
}

// The place after so many numbers. The error is `TooLarge`.
fn place_after(place: u32, count: usize) -> Result<u32, NumbersError>
    ensures { IfOk result (λ n. n ≡ place + count) }
{
    match (place as usize).checked_add(count) {
        Some(sum) => number_of(sum),
        None => Err(NumbersError::TooLarge),
    }
}

// The place of the first token set.
fn first_place(tables: &NumberedTables) -> Result<u32, NumbersError>
    ensures { IfOk result (λ n. n ≡ first_set_place tables.now) }
{
    let sets = place_after(8, tables.sets.len())?;
    let states = place_after(sets, tables.states.len())?;
    let lists = place_after(states, tables.items.len())?;
    let half = place_after(lists, tables.productions.len())?;
    let end = place_after(half, tables.productions.len())?;
    Ok(end)
}

// Appends the head.
fn push_head(out: &mut Vec<u32>, tables: &NumberedTables) -> Result<(), NumbersError>
    ensures { OnOk result (out.new.items ≡ out.old.items ++ head_of tables.now) }
{
    out.push(MAGIC)?;
    out.push(VERSION)?;
    out.push(number_of(tables.items.len())?)?;
    out.push(tables.terminals)?;
    out.push(tables.nonterminals)?;
    out.push(number_of(tables.productions.len())?)?;
    out.push(number_of(tables.sets.len())?)?;
    out.push(number_of(tables.states.len())?)?;
    Ok(())
}

// Appends the places of token sets, the first of which is at a place. Returns the place after them.
fn push_set_places(
    out: &mut Vec<u32>,
    sets: &[Sequence<u32>],
    first: u32,
) -> Result<u32, NumbersError>
    ensures places { OnOk result
        (out.new.items ≡ out.old.items ++ places_from set_block first sets.now) }
    ensures end { IfOk result (λ end. end ≡ first + length (flat_map set_block sets.now)) }
{
    let mut place = first;
    for set in sets {
        out.push(place)?;
        place = place_after(place_after(place, 1)?, set.len())?;
    }
    Ok(place)
}

// Appends the places of states, the first of which is at a place. Returns the place after them.
fn push_state_places(
    out: &mut Vec<u32>,
    states: &[NumberedState],
    first: u32,
) -> Result<u32, NumbersError>
    ensures places { OnOk result
        (out.new.items ≡ out.old.items ++ places_from state_block first states.now) }
    ensures end { IfOk result (λ end. end ≡ first + length (flat_map state_block states.now)) }
{
    let mut place = first;
    for state in states {
        out.push(place)?;
        place = place_after_state(place, state)?;
    }
    Ok(place)
}

// Appends the places of lists of items, the first of which is at a place. Returns the place after
// them.
fn push_list_places(
    out: &mut Vec<u32>,
    lists: &[Sequence<NumberedItem>],
    first: u32,
) -> Result<u32, NumbersError>
    ensures places { OnOk result
        (out.new.items ≡ out.old.items ++ places_from item_block first lists.now) }
    ensures end { IfOk result (λ end. end ≡ first + length (flat_map item_block lists.now)) }
{
    let mut place = first;
    for list in lists {
        out.push(place)?;
        place = place_after_items(place, list.as_slice())?;
    }
    Ok(place)
}

// The place after the block of a list of items.
fn place_after_items(place: u32, items: &[NumberedItem]) -> Result<u32, NumbersError>
    ensures { IfOk result (λ n. n ≡ place + length (item_block items.now)) }
{
    let first = place_after(place, 1)?;
    let second = place_after(first, items.len())?;
    let third = place_after(second, items.len())?;
    let end = place_after(third, items.len())?;
    Ok(end)
}

// The place after the block of a state.
fn place_after_state(place: u32, state: &NumberedState) -> Result<u32, NumbersError>
    ensures { IfOk result (λ n. n ≡ place + length (state_block state.now)) }
{
    let gotos = place_after_pairs(place, state.shifts.as_slice())?;
    let reductions = place_after_pairs(gotos, state.gotos.as_slice())?;
    let end = place_after_pairs(reductions, state.reductions.as_slice())?;
    Ok(end)
}

// The place after a counted list of pairs.
fn place_after_pairs(place: u32, pairs: &[(u32, u32)]) -> Result<u32, NumbersError>
    ensures { IfOk result (λ n. n ≡ place + length (counted_pairs pairs.now)) }
{
    let half = place_after(place_after(place, 1)?, pairs.len())?;
    let end = place_after(half, pairs.len())?;
    Ok(end)
}

// Appends the numbers of pairs.
fn push_pairs(out: &mut Vec<u32>, pairs: &[(u32, u32)]) -> Result<(), NumbersError>
    ensures { OnOk result (out.new.items ≡ out.old.items ++ pair_numbers pairs.now) }
{
    for (name, target) in pairs {
        out.push(*name)?;
        out.push(*target)?;
    }
    Ok(())
}

// Appends how many pairs there are, and their numbers.
fn push_counted(out: &mut Vec<u32>, pairs: &[(u32, u32)]) -> Result<(), NumbersError>
    ensures { OnOk result (out.new.items ≡ out.old.items ++ counted_pairs pairs.now) }
{
    out.push(number_of(pairs.len())?)?;
    push_pairs(out, pairs)
}

// Appends the block of a token set.
fn push_set(out: &mut Vec<u32>, tokens: &[u32]) -> Result<(), NumbersError>
    ensures { OnOk result (out.new.items ≡ out.old.items ++ set_block tokens.now) }
{
    out.push(number_of(tokens.len())?)?;
    out.extend_from_slice(tokens)?;
    Ok(())
}

// Appends the blocks of token sets.
fn push_sets(out: &mut Vec<u32>, sets: &[Sequence<u32>]) -> Result<(), NumbersError>
    ensures { OnOk result (out.new.items ≡ out.old.items ++ flat_map set_block sets.now) }
{
    for set in sets {
        push_set(out, set.as_slice())?;
    }
    Ok(())
}

// Appends the block of a state.
fn push_state(out: &mut Vec<u32>, state: &NumberedState) -> Result<(), NumbersError>
    ensures { OnOk result (out.new.items ≡ out.old.items ++ state_block state.now) }
{
    push_counted(out, state.shifts.as_slice())?;
    push_counted(out, state.gotos.as_slice())?;
    push_counted(out, state.reductions.as_slice())
}

// Appends the blocks of states.
fn push_states(out: &mut Vec<u32>, states: &[NumberedState]) -> Result<(), NumbersError>
    ensures { OnOk result (out.new.items ≡ out.old.items ++ flat_map state_block states.now) }
{
    for state in states {
        push_state(out, state)?;
    }
    Ok(())
}

// Appends the numbers of items.
fn push_items(out: &mut Vec<u32>, items: &[NumberedItem]) -> Result<(), NumbersError>
    ensures { OnOk result (out.new.items ≡ out.old.items ++ item_numbers items.now) }
{
    for item in items {
        out.push(item.production)?;
        out.push(item.dot)?;
        out.push(item.lookahead)?;
    }
    Ok(())
}

// Appends the block of a list of items.
fn push_list(out: &mut Vec<u32>, items: &[NumberedItem]) -> Result<(), NumbersError>
    ensures { OnOk result (out.new.items ≡ out.old.items ++ item_block items.now) }
{
    out.push(number_of(items.len())?)?;
    push_items(out, items)
}

// Appends the blocks of lists of items.
fn push_lists(out: &mut Vec<u32>, lists: &[Sequence<NumberedItem>]) -> Result<(), NumbersError>
    ensures { OnOk result (out.new.items ≡ out.old.items ++ flat_map item_block lists.now) }
{
    for list in lists {
        push_list(out, list.as_slice())?;
    }
    Ok(())
}
